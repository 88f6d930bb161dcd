//! The names in an expression: each is visible (E08). What each reference names is noted by how many are
//! declared before it: that of a reference where it begins, and a 0 behind the operands of each other form.

ghost use Rattle.std.specs.Prelude.{◌≡◌, IfOk, map, option_map};
ghost use Rattle.fir_ast.specs.working.Views.{expr_of, expressions_of, sink_of};
ghost use Rattle.fir_ast.specs.working.CodeFaults.{fault_of};
ghost use Rattle.fir_pass.specs.Groups.{first_of};
ghost use Rattle.fir_meaning.specs.Components.{Declarations};
ghost use Rattle.fir_meaning.specs.Mentions.{expression_mentions, operand_mentions, part_mentions, sink_mentions, uses};
ghost use Rattle.fir_meaning.specs.NameGroups.{faults_in, mention_faults};
ghost use Rattle.fir_resolve.specs.working.Scoped.{Sees};
ghost use Rattle.fir_names.specs.working.Parts.{part_view};

use crate::faults::unknown;
use crate::scope::Scope;
use fir_ast::{Expr, FirFault, Part, Place, Reference};
use fir_base::{MemoryOut, Name};
use std::alloc::Global;

/// The first name in an expression that is not visible.
#[cycle(expressions)]
pub fn in_expression(
    expr: &Expr,
    alloc: Global,
    scope: &Scope,
    noted: &mut Vec<usize>,
) -> Result<Option<FirFault>, MemoryOut>
    ensures { IfOk result (λ f. (visible : Declarations) → Sees scope.now visible → option_map fault_of f ≡ first_of (faults_in (expression_mentions visible (expr_of expr.now)))) }
{
    match expr {
        Expr::Ref(reference) => in_reference(reference, alloc, scope, noted),
        Expr::Literal(_) => with_note(noted, None),
        Expr::Op(_, _, operands, _) => {
            let fault = in_operands(operands, alloc, scope, noted)?;
            with_note(noted, fault)
        }
        Expr::Mux(_, condition, high, low) => {
            if let Some(fault) = in_expression(condition, alloc, scope, noted)? {
                return Ok(Some(fault));
            }
            if let Some(fault) = in_expression(high, alloc, scope, noted)? {
                return Ok(Some(fault));
            }
            let fault = in_expression(low, alloc, scope, noted)?;
            with_note(noted, fault)
        }
        Expr::Validif(_, condition, value) => {
            if let Some(fault) = in_expression(condition, alloc, scope, noted)? {
                return Ok(Some(fault));
            }
            let fault = in_expression(value, alloc, scope, noted)?;
            with_note(noted, fault)
        }
    }
}

/// Gives what was found in an expression that names nothing itself; where that is no fault, this is noted.
fn with_note(noted: &mut Vec<usize>, found: Option<FirFault>) -> Result<Option<FirFault>, MemoryOut>
    ensures { IfOk result (λ f. f ≡ found) }
{
    match found {
        Some(fault) => Ok(Some(fault)),
        None => {
            noted.push(0)?;
            Ok(None)
        }
    }
}

#[cycle(expressions)]
fn in_operands(
    operands: &[Expr],
    alloc: Global,
    scope: &Scope,
    noted: &mut Vec<usize>,
) -> Result<Option<FirFault>, MemoryOut>
    ensures { IfOk result (λ f. (visible : Declarations) → Sees scope.now visible → option_map fault_of f ≡ first_of (faults_in (operand_mentions visible (expressions_of (map expr_of operands.now))))) }
{
    for operand in operands {
        if let Some(fault) = in_expression(operand, alloc, scope, noted)? {
            return Ok(Some(fault));
        }
    }
    Ok(None)
}

/// The first name in a reference that is not visible: its own, or one in an index.
#[cycle(expressions)]
pub fn in_reference(
    reference: &Reference,
    alloc: Global,
    scope: &Scope,
    noted: &mut Vec<usize>,
) -> Result<Option<FirFault>, MemoryOut>
    ensures { IfOk result (λ f. (visible : Declarations) → Sees scope.now visible → option_map fault_of f ≡ first_of (faults_in (sink_mentions visible (sink_of reference.now)))) }
{
    if let Some(fault) = in_name(alloc, scope, noted, reference.place, &reference.name)? {
        return Ok(Some(fault));
    }
    for part in &reference.parts {
        if let Some(fault) = in_part(part, alloc, scope, noted)? {
            return Ok(Some(fault));
        }
    }
    Ok(None)
}

#[cycle(expressions)]
fn in_part(
    part: &Part,
    alloc: Global,
    scope: &Scope,
    noted: &mut Vec<usize>,
) -> Result<Option<FirFault>, MemoryOut>
    ensures { IfOk result (λ f. (visible : Declarations) → Sees scope.now visible → option_map fault_of f ≡ first_of (faults_in (part_mentions visible (part_view part.now)))) }
{
    match part {
        Part::Access(_, index) => in_expression(index, alloc, scope, noted),
        Part::Field(_, _, _) | Part::Index(_, _, _) => Ok(None),
    }
}

/// E08, where the name is not visible.
fn in_name(
    alloc: Global,
    scope: &Scope,
    noted: &mut Vec<usize>,
    place: Place,
    name: &Name,
) -> Result<Option<FirFault>, MemoryOut>
    ensures { IfOk result (λ f. (visible : Declarations) → Sees scope.now visible → option_map fault_of f ≡ first_of (mention_faults (uses visible place name.now))) }
{
    let Some(position) = scope.position_of(name) else {
        return Ok(Some(unknown(alloc, place, name)?));
    };
    noted.push(position)?;
    Ok(None)
}

//! The numbers of expressions, in the order of the text: operands before the form itself, and an index
//! before its reference.

ghost use Rattle.std.specs.Prelude.{◌≡◌, ◌++◌, ℕ, List, [], ◌∷◌, map, IfOk, OnOk};
ghost use Rattle.fir_ast.specs.Circuits.{CircuitTree};
ghost use Rattle.fir_ast.specs.Expressions.{Parts};
ghost use Rattle.fir_ast.specs.Types.{DataType};
ghost use Rattle.fir_ast.specs.working.Views.{expr_of, expressions_of, sink_of};
ghost use Rattle.fir_meaning.specs.Reaching.{Reached};
ghost use Rattle.fir_meaning.specs.TypedScopes.{TypedScope};
ghost use Rattle.fir_meaning.specs.SizedScopes.{SizedScope, sink_expression, sized_type, sized_types};
ghost use Rattle.fir_meaning.specs.working.WellTyped.{HasType, HaveTypes, Leads, Reaches};
ghost use Rattle.fir_meaning.specs.WidthExpressions.{Rule, Width};
ghost use Rattle.fir_names.specs.working.Parts.{part_of};
ghost use Rattle.fir_types.specs.working.Notes.{Note as Meant, expression_notes, notes_of_each, part_notes, reference_notes};
ghost use Rattle.fir_infer_widths.specs.working.Spots.{spots_of_condition, spots_of_sink, spots_within, spots_within_each, spots_within_parts};
ghost use Rattle.fir_infer_widths.specs.working.Walks.{ComesPast, ComesTo, ComesToAll, Enters};

use crate::forms::{on_literal, on_mux, on_operation, on_validif};
use crate::ground::Ground;
use crate::spot::{Spot, put_spot};
use crate::walk::Walk;
use fir_ast::{Expr, Part, Reference};
use fir_base::MemoryOut;
use fir_types::place_of;
use fir_width::Side;
use std::alloc::Global;

/// An expression.
#[cycle(expressions)]
pub fn in_expression<'a>(
    expr: &'a Expr,
    alloc: Global,
    ground: &Ground<'a>,
    walk: &mut Walk<'a>,
) -> Result<Side, MemoryOut>
    ensures { (c : CircuitTree) (typed : TypedScope) (sized : SizedScope) (t : DataType) (meant : List Width) (rules : List Rule) (rest : List Meant) → Enters ground.now typed sized meant rules (expression_notes typed (expr_of expr.now) ++ rest) walk.old → HasType typed (expr_of expr.now) t → IfOk result (ComesTo c ground.now meant rules rest (spots_within sized (expr_of expr.now)) (sized_type sized (expr_of expr.now)) walk.old walk.new) }
{
    match expr {
        Expr::Ref(reference) => in_reference(reference, alloc, ground, walk),
        Expr::Literal(literal) => on_literal(walk, literal),
        Expr::Op(place, op, operands, integers) => {
            let sides = in_operands(operands, alloc, ground, walk)?;
            on_operation(ground, walk, *place, *op, sides.as_slice(), integers)
        }
        Expr::Mux(place, condition, one, other) => {
            let condition = in_condition(condition, alloc, ground, walk)?;
            let one = in_expression(one, alloc, ground, walk)?;
            let other = in_expression(other, alloc, ground, walk)?;
            on_mux(ground, walk, *place, condition, one, other)
        }
        Expr::Validif(place, condition, value) => {
            let condition = in_condition(condition, alloc, ground, walk)?;
            let value = in_expression(value, alloc, ground, walk)?;
            on_validif(ground, walk, *place, condition, value)
        }
    }
}

/// The operands of an operation.
#[cycle(expressions)]
fn in_operands<'a>(
    operands: &'a [Expr],
    alloc: Global,
    ground: &Ground<'a>,
    walk: &mut Walk<'a>,
) -> Result<Vec<Side>, MemoryOut>
    ensures { (c : CircuitTree) (typed : TypedScope) (sized : SizedScope) (ts : List DataType) (meant : List Width) (rules : List Rule) (rest : List Meant) → Enters ground.now typed sized meant rules (notes_of_each typed (expressions_of (map expr_of operands.now)) ++ rest) walk.old → HaveTypes typed (expressions_of (map expr_of operands.now)) ts → IfOk result (λ sides. ComesToAll c ground.now meant rules rest (spots_within_each sized (expressions_of (map expr_of operands.now))) (sized_types sized (expressions_of (map expr_of operands.now))) walk.old walk.new sides.items) }
{
    let mut sides = Vec::new(alloc);
    for operand in operands {
        sides.push(in_expression(operand, alloc, ground, walk)?)?;
    }
    Ok(sides)
}

/// A condition.
#[cycle(expressions)]
pub fn in_condition<'a>(
    condition: &'a Expr,
    alloc: Global,
    ground: &Ground<'a>,
    walk: &mut Walk<'a>,
) -> Result<Side, MemoryOut>
    ensures { (c : CircuitTree) (typed : TypedScope) (sized : SizedScope) (t : DataType) (meant : List Width) (rules : List Rule) (rest : List Meant) → Enters ground.now typed sized meant rules (expression_notes typed (expr_of condition.now) ++ rest) walk.old → HasType typed (expr_of condition.now) t → IfOk result (ComesTo c ground.now meant rules rest (spots_of_condition sized (expr_of condition.now)) (sized_type sized (expr_of condition.now)) walk.old walk.new) }
{
    let side = in_expression(condition, alloc, ground, walk)?;
    put_spot(&mut walk.spots, Spot::Condition(place_of(condition), side))?;
    Ok(side)
}

/// A reference, behind the expressions in its indices.
#[cycle(expressions)]
pub fn in_reference<'a>(
    reference: &'a Reference,
    alloc: Global,
    ground: &Ground<'a>,
    walk: &mut Walk<'a>,
) -> Result<Side, MemoryOut>
    ensures { (c : CircuitTree) (typed : TypedScope) (sized : SizedScope) (r : Reached) (meant : List Width) (rules : List Rule) (rest : List Meant) → Enters ground.now typed sized meant rules (reference_notes typed (sink_of reference.now) ++ rest) walk.old → Reaches typed (sink_of reference.now) r → IfOk result (ComesTo c ground.now meant rules rest (spots_of_sink sized (sink_of reference.now)) (sized_type sized (sink_expression (sink_of reference.now))) walk.old walk.new) }
{
    for part in &reference.parts {
        in_part(part, alloc, ground, walk)?;
    }
    let side = walk.named(ground);
    put_spot(&mut walk.spots, Spot::Reference(reference, side))?;
    Ok(side)
}

/// A part of a reference.
#[cycle(expressions)]
fn in_part<'a>(
    part: &'a Part,
    alloc: Global,
    ground: &Ground<'a>,
    walk: &mut Walk<'a>,
) -> Result<(), MemoryOut>
    ensures { (c : CircuitTree) (typed : TypedScope) (sized : SizedScope) (r s : Reached) (parts : Parts) (meant : List Width) (rules : List Rule) (rest : List Meant) → Enters ground.now typed sized meant rules (part_notes typed (part_of part.now parts) ++ rest) walk.old → Leads typed r (part_of part.now parts) s → OnOk result (ComesPast c ground.now typed sized (part_of part.now) parts meant rules rest walk.old walk.new) }
{
    match part {
        Part::Field(_, _, _) | Part::Index(_, _, _) => Ok(()),
        Part::Access(_, expr) => {
            in_expression(expr, alloc, ground, walk)?;
            Ok(())
        }
    }
}

//! Expressions as nodes, in the order of the text: operands before the form itself, and an index before its
//! reference.

ghost use Rattle.std.specs.Prelude.{◌≡◌, ◌++◌, List, map, IfOk, OnOk};
ghost use Rattle.fir_ast.specs.Expressions.{Parts};
ghost use Rattle.fir_ast.specs.Types.{DataType};
ghost use Rattle.fir_ast.specs.working.Views.{expr_of, expressions_of, sink_of};
ghost use Rattle.fir_meaning.specs.working.Leafed.{first_term, operands as terms_of_each, target_of, terms};
ghost use Rattle.fir_meaning.specs.Reaching.{Reached};
ghost use Rattle.fir_meaning.specs.TypedScopes.{TypedScope};
ghost use Rattle.fir_meaning.specs.working.WellTyped.{HasType, HaveTypes, Leads, Reaches as ReachesThere};
ghost use Rattle.fir_names.specs.working.Parts.{part_of};
ghost use Rattle.fir_types.specs.working.Notes.{Note as Meant, expression_notes, notes_of_each, part_notes, reference_notes};
ghost use Rattle.fir_ground.specs.working.Expressions.{ExpandsFirst};
ghost use Rattle.fir_ground.specs.working.Grounds.{Enters, Expands, Reaches};
ghost use Rattle.fir_ground.specs.working.Indices.{AreIndices, ComesPast, Index as IndexMeant};

use crate::forms::{on_literal, on_mux, on_operation, on_validif};
use crate::ground::Ground;
use crate::leafwise::first;
use crate::reads::read_all;
use crate::references::{Index, named};
use crate::walk::Walk;
use fir_ast::{Expr, Part, Reference};
use fir_base::MemoryOut;
use fir_leaf_pairs::Target;
use fir_types::place_of;
use std::alloc::Global;

/// An expression: a node for each of its leaves, in the order of its type.
#[cycle(expressions)]
pub fn in_expression<'a>(
    expr: &'a Expr,
    alloc: Global,
    ground: &Ground<'a>,
    walk: &mut Walk<'a>,
) -> Result<Vec<usize>, MemoryOut>
    ensures { (typed : TypedScope) (t : DataType) (rest : List Meant) → Enters ground.now typed (expression_notes typed (expr_of expr.now) ++ rest) walk.old → HasType typed (expr_of expr.now) t → IfOk result (λ ids. Expands ground.now rest walk.old walk.new ids.items (terms typed (expr_of expr.now))) }
{
    match expr {
        Expr::Ref(reference) => {
            let target = in_reference(reference, alloc, ground, walk)?;
            read_all(alloc, ground.table, &mut walk.nodes, target)
        }
        Expr::Literal(literal) => on_literal(alloc, walk, literal),
        Expr::Op(_, op, operands, integers) => {
            let operands = in_operands(operands, alloc, ground, walk)?;
            on_operation(alloc, walk, *op, operands, integers)
        }
        Expr::Mux(_, condition, one, other) => {
            let condition = in_first(condition, alloc, ground, walk)?;
            let one = in_expression(one, alloc, ground, walk)?;
            let other = in_expression(other, alloc, ground, walk)?;
            on_mux(alloc, walk, condition, &one, &other)
        }
        Expr::Validif(_, condition, value) => {
            let condition = in_first(condition, alloc, ground, walk)?;
            let value = in_expression(value, alloc, ground, walk)?;
            on_validif(alloc, walk, condition, &value)
        }
    }
}

/// A condition, an operand or an index: the node of its first leaf.
#[cycle(expressions)]
pub fn in_first<'a>(
    expr: &'a Expr,
    alloc: Global,
    ground: &Ground<'a>,
    walk: &mut Walk<'a>,
) -> Result<usize, MemoryOut>
    ensures { (typed : TypedScope) (t : DataType) (rest : List Meant) → Enters ground.now typed (expression_notes typed (expr_of expr.now) ++ rest) walk.old → HasType typed (expr_of expr.now) t → IfOk result (λ id. ExpandsFirst ground.now rest walk.old walk.new id (first_term (terms typed (expr_of expr.now)))) }
{
    let ids = in_expression(expr, alloc, ground, walk)?;
    first(&mut walk.nodes, &ids)
}

/// The operands of an operation: a node for each.
#[cycle(expressions)]
fn in_operands<'a>(
    operands: &'a [Expr],
    alloc: Global,
    ground: &Ground<'a>,
    walk: &mut Walk<'a>,
) -> Result<Vec<usize>, MemoryOut>
    ensures { (typed : TypedScope) (ts : List DataType) (rest : List Meant) → Enters ground.now typed (notes_of_each typed (expressions_of (map expr_of operands.now)) ++ rest) walk.old → HaveTypes typed (expressions_of (map expr_of operands.now)) ts → IfOk result (λ ids. Expands ground.now rest walk.old walk.new ids.items (terms_of_each typed (expressions_of (map expr_of operands.now)))) }
{
    let mut ids = Vec::new(alloc);
    for operand in operands {
        ids.push(in_first(operand, alloc, ground, walk)?)?;
    }
    Ok(ids)
}

/// What a reference names, behind the expressions in its indices.
#[cycle(expressions)]
pub fn in_reference<'a>(
    reference: &'a Reference,
    alloc: Global,
    ground: &Ground<'a>,
    walk: &mut Walk<'a>,
) -> Result<Target, MemoryOut>
    ensures { (typed : TypedScope) (r : Reached) (rest : List Meant) → Enters ground.now typed (reference_notes typed (sink_of reference.now) ++ rest) walk.old → ReachesThere typed (sink_of reference.now) r → IfOk result (λ t. Reaches ground.now rest walk.old walk.new t (target_of typed (sink_of reference.now))) }
{
    let mut indices = Vec::new(alloc);
    for part in &reference.parts {
        in_part(part, alloc, ground, walk, &mut indices)?;
    }
    named(ground, walk, &indices)
}

/// A part of a reference: its index, if it has a dynamic one.
#[cycle(expressions)]
fn in_part<'a>(
    part: &'a Part,
    alloc: Global,
    ground: &Ground<'a>,
    walk: &mut Walk<'a>,
    indices: &mut Vec<Index>,
) -> Result<(), MemoryOut>
    ensures { (typed : TypedScope) (r s : Reached) (parts : Parts) (rest : List Meant) (done : List IndexMeant) → Enters ground.now typed (part_notes typed (part_of part.now parts) ++ rest) walk.old → Leads typed r (part_of part.now parts) s → AreIndices walk.old.nodes.items indices.old.items done → OnOk result (ComesPast ground.now typed (part_of part.now) parts rest walk.old walk.new done indices.new.items) }
{
    match part {
        Part::Field(_, _, _) | Part::Index(_, _, _) => Ok(()),
        Part::Access(_, expr) => {
            let node = in_first(expr, alloc, ground, walk)?;
            indices.push(Index {
                place: place_of(expr),
                node,
            })?;
            Ok(())
        }
    }
}

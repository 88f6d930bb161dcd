//! The type of an expression, or its first fault. What names nothing has no type and no fault here, and
//! neither has what is made of it. What is found of each form is noted behind what is found of its operands.

ghost use Rattle.std.specs.Prelude.{◌≡◌, [], ◌∷◌, IfOk, OnOk, map, option_map};
ghost use Rattle.fir_ast.specs.Expressions.{Parts};
ghost use Rattle.fir_ast.specs.working.Views.{expr_of, expressions_of, sink_of};
ghost use Rattle.fir_meaning.specs.Checked.{Checked};
ghost use Rattle.fir_meaning.specs.LeafPaths.{LeafPath};
ghost use Rattle.fir_meaning.specs.ExpressionPlaces.{place_of};
ghost use Rattle.fir_meaning.specs.Reaching.{Reached};
ghost use Rattle.fir_meaning.specs.TypedScopes.{TypedScope};
ghost use Rattle.fir_meaning.specs.ExpressionTypes.{condition_form, expression_type, expression_types, passive_form, reaching};
ghost use Rattle.fir_type_table.specs.working.Tables.{types_of};
ghost use Rattle.fir_names.specs.working.Parts.{part_of};
ghost use Rattle.fir_types.specs.working.Judged.{Finds, GoesOn, Is};
ghost use Rattle.fir_types.specs.working.Known.{Knows};
ghost use Rattle.fir_types.specs.working.Notes.{expression_notes, notes_of_each, reference_notes};
ghost use Rattle.fir_types.specs.working.Noted.{Noted, NotesOfPart, RangeStep};
ghost use Rattle.fir_types.specs.working.Seen.{found_type, reached_as, sink_path};

use crate::on_found::{on_mux, on_operation, on_passive, on_unsigned, on_validif, with_operand};
use crate::on_reached::{on_access, on_field, on_index};
use fir_ast::{Expr, FirFault, Part, Place, Reference};
use fir_base::Refused;
use fir_names::Names;
use fir_types::{Found, Note, Pick, Reach, Scope, note_expression, note_reference, place_of};
use std::alloc::Global;

/// The type of an expression.
#[cycle(check)]
pub fn in_expression(
    expr: &Expr,
    alloc: Global,
    names: &Names,
    scope: &Scope,
    notes: &mut Vec<Note>,
) -> Result<Option<Found>, Refused<FirFault>>
    ensures found { (typed : TypedScope) → Knows names.now scope.now typed → Finds (found_type (types_of scope.now.table)) (expression_type typed (expr_of expr.now)) result }
    ensures notes { (typed : TypedScope) → Knows names.now scope.now typed → OnOk result (Noted (types_of scope.now.table) notes.old.items notes.new.items (expression_notes typed (expr_of expr.now))) }
{
    match expr {
        Expr::Ref(reference) => match in_reference(reference, alloc, names, scope, notes)? {
            Some(reached) => Ok(Some(reached.found)),
            None => Ok(None),
        },
        Expr::Literal(literal) => {
            let found = Found::Number(literal.signed, literal.width);
            note_expression(scope, notes, Ok(Some(found)))
        }
        Expr::Op(place, op, operands, integers) => {
            let found = in_operands(operands, alloc, names, scope, notes)?;
            let found = on_operation(alloc, &scope.table, *place, *op, found, integers);
            note_expression(scope, notes, found)
        }
        Expr::Mux(place, condition, one, other) => {
            let condition = in_unsigned(condition, alloc, names, scope, notes)?;
            let one = in_passive(one, alloc, names, scope, notes)?;
            let other = in_passive(other, alloc, names, scope, notes)?;
            let found = on_mux(alloc, &scope.table, *place, condition, one, other);
            note_expression(scope, notes, found)
        }
        Expr::Validif(place, condition, value) => {
            let condition = in_unsigned(condition, alloc, names, scope, notes)?;
            let value = in_passive(value, alloc, names, scope, notes)?;
            let found = on_validif(alloc, &scope.table, *place, condition, value);
            note_expression(scope, notes, found)
        }
    }
}

/// The types of operands, where each has one.
#[cycle(check)]
fn in_operands(
    operands: &[Expr],
    alloc: Global,
    names: &Names,
    scope: &Scope,
    notes: &mut Vec<Note>,
) -> Result<Option<Vec<Found>>, Refused<FirFault>>
    ensures found { (typed : TypedScope) → Knows names.now scope.now typed → Finds (λ v. map (found_type (types_of scope.now.table)) v.items) (expression_types typed (expressions_of (map expr_of operands.now))) result }
    ensures notes { (typed : TypedScope) → Knows names.now scope.now typed → OnOk result (Noted (types_of scope.now.table) notes.old.items notes.new.items (notes_of_each typed (expressions_of (map expr_of operands.now)))) }
{
    let mut all = Some(Vec::new(alloc));
    for operand in operands {
        let found = in_expression(operand, alloc, names, scope, notes)?;
        all = with_operand(all, found)?;
    }
    Ok(all)
}

/// The type of a condition or an index.
#[cycle(check)]
pub fn in_unsigned(
    expr: &Expr,
    alloc: Global,
    names: &Names,
    scope: &Scope,
    notes: &mut Vec<Note>,
) -> Result<Option<Found>, Refused<FirFault>>
    ensures found { (typed : TypedScope) → Knows names.now scope.now typed → Finds (found_type (types_of scope.now.table)) (condition_form (place_of (expr_of expr.now)) (expression_type typed (expr_of expr.now))) result }
    ensures notes { (typed : TypedScope) → Knows names.now scope.now typed → OnOk result (Noted (types_of scope.now.table) notes.old.items notes.new.items (expression_notes typed (expr_of expr.now))) }
{
    let found = in_expression(expr, alloc, names, scope, notes)?;
    on_unsigned(alloc, &scope.table, place_of(expr), found)
}

/// The type of an operand that may have no flips.
#[cycle(check)]
fn in_passive(
    expr: &Expr,
    alloc: Global,
    names: &Names,
    scope: &Scope,
    notes: &mut Vec<Note>,
) -> Result<Option<Found>, Refused<FirFault>>
    ensures found { (typed : TypedScope) → Knows names.now scope.now typed → Finds (found_type (types_of scope.now.table)) (passive_form (place_of (expr_of expr.now)) (expression_type typed (expr_of expr.now))) result }
    ensures notes { (typed : TypedScope) → Knows names.now scope.now typed → OnOk result (Noted (types_of scope.now.table) notes.old.items notes.new.items (expression_notes typed (expr_of expr.now))) }
{
    let found = in_expression(expr, alloc, names, scope, notes)?;
    on_passive(alloc, &scope.table, place_of(expr), found)
}

/// What a reference reaches.
#[cycle(check)]
pub fn in_reference(
    reference: &Reference,
    alloc: Global,
    names: &Names,
    scope: &Scope,
    notes: &mut Vec<Note>,
) -> Result<Option<Reach>, Refused<FirFault>>
    ensures found { (typed : TypedScope) → Knows names.now scope.now typed → Finds (reached_as (types_of scope.now.table) (sink_path (sink_of reference.now))) (reaching typed (sink_of reference.now)) result }
    ensures notes { (typed : TypedScope) → Knows names.now scope.now typed → OnOk result (Noted (types_of scope.now.table) notes.old.items notes.new.items (reference_notes typed (sink_of reference.now))) }
{
    let mut reached = scope.root(names, notes.len(), &reference.name);
    let mut picks = Vec::new(alloc);
    for part in &reference.parts {
        let place = reference.place;
        reached = in_part(part, alloc, names, scope, notes, place, reached, &mut picks)?;
    }
    note_reference(scope, notes, reached, picks)?;
    Ok(reached)
}

/// What one part more reaches.
#[cycle(check)]
fn in_part(
    part: &Part,
    alloc: Global,
    names: &Names,
    scope: &Scope,
    notes: &mut Vec<Note>,
    place: Place,
    reached: Option<Reach>,
    picks: &mut Vec<Pick>,
) -> Result<Option<Reach>, Refused<FirFault>>
    ensures found { (typed : TypedScope) → Knows names.now scope.now typed → (path : LeafPath) (c : Checked Reached) → Is c (option_map (reached_as (types_of scope.now.table) path) reached) → (rest : Parts) → GoesOn (types_of scope.now.table) typed place path c (part_of part.now) rest result }
    ensures notes { (typed : TypedScope) → Knows names.now scope.now typed → OnOk result (NotesOfPart (types_of scope.now.table) typed (part_of part.now) notes.old.items notes.new.items) }
    ensures range { IfOk result (λ y. RangeStep (types_of scope.now.table) (part_of part.now) reached picks.old.items y picks.new.items) }
{
    match part {
        Part::Field(_, _, name) => on_field(alloc, &scope.table, place, reached, name),
        Part::Index(_, _, index) => on_index(alloc, &scope.table, place, reached, *index),
        Part::Access(_, expr) => {
            let index = in_unsigned(expr, alloc, names, scope, notes)?;
            on_access(alloc, &scope.table, place, reached, index, picks)
        }
    }
}

//! The types and flows of connects and partial connects (FIRRTL spec, "Connects", "Partial Connects", "Flow").

ghost use Rattle.std.specs.Prelude.{OnOk};
ghost use Rattle.fir_ast.specs.working.Views.{expr_of, sink_of};
ghost use Rattle.fir_meaning.specs.Checked.{shown_after};
ghost use Rattle.fir_meaning.specs.ConnectFaults.{connect_faults, partial_connect_faults};
ghost use Rattle.fir_meaning.specs.ExpressionTypes.{reached_by};
ghost use Rattle.fir_meaning.specs.TypeGroup.{sides};
ghost use Rattle.fir_meaning.specs.TypedScopes.{TypedScope};
ghost use Rattle.fir_type_table.specs.working.Tables.{types_of};
ghost use Rattle.fir_check.specs.working.Connected.{IsByReference, IsSource, right_of};
ghost use Rattle.fir_types.specs.working.Known.{Knows};
ghost use Rattle.fir_types.specs.working.ModuleNotes.{connect_notes};
ghost use Rattle.fir_types.specs.working.Notes.{expression_notes};
ghost use Rattle.fir_types.specs.working.Noted.{Noted};
ghost use Rattle.fir_types.specs.working.Seen.{found_type, reached_as, sink_path};
ghost use Rattle.fir_types.specs.working.Walked.{Judges};

use crate::drives::{Sides, drives_a_source};
use crate::expressions::{in_expression, in_reference};
use crate::faults::wrong_types;
use crate::found_pairs::{fit, fit_partly};
use fir_ast::{Expr, FirFault, Place, Reference};
use fir_base::Refused;
use fir_names::Names;
use fir_types::{Found, Note, Reach, Scope};
use std::alloc::Global;

/// `sink <= source`: the types fit, and no driven leaf is a source.
pub fn in_connect(
    alloc: Global,
    names: &Names,
    scope: &Scope,
    notes: &mut Vec<Note>,
    place: Place,
    sink: &Reference,
    source: &Expr,
) -> Result<(), Refused<FirFault>>
    ensures found { (typed : TypedScope) → Knows names.now scope.now typed → Judges (shown_after (sides typed (sink_of sink.now) (expr_of source.now)) (λ found. connect_faults place found.0 (reached_by typed (expr_of source.now)) found.1)) result }
    ensures notes { (typed : TypedScope) → Knows names.now scope.now typed → OnOk result (Noted (types_of scope.now.table) notes.old.items notes.new.items (connect_notes typed (sink_of sink.now) (expr_of source.now))) }
{
    let left = in_reference(sink, alloc, names, scope, notes)?;
    let right = in_source(alloc, names, scope, notes, source)?;
    match (left, right) {
        (Some(left), Some(right)) => on_connect(alloc, scope, place, sink, left, source, right),
        _ => Ok(()),
    }
}

/// `sink <- source`: fields that both have fit, and no driven leaf is a source.
pub fn in_partial_connect(
    alloc: Global,
    names: &Names,
    scope: &Scope,
    notes: &mut Vec<Note>,
    place: Place,
    sink: &Reference,
    source: &Expr,
) -> Result<(), Refused<FirFault>>
    ensures found { (typed : TypedScope) → Knows names.now scope.now typed → Judges (shown_after (sides typed (sink_of sink.now) (expr_of source.now)) (λ found. partial_connect_faults place found.0 (reached_by typed (expr_of source.now)) found.1)) result }
    ensures notes { (typed : TypedScope) → Knows names.now scope.now typed → OnOk result (Noted (types_of scope.now.table) notes.old.items notes.new.items (connect_notes typed (sink_of sink.now) (expr_of source.now))) }
{
    let left = in_reference(sink, alloc, names, scope, notes)?;
    let right = in_source(alloc, names, scope, notes, source)?;
    match (left, right) {
        (Some(left), Some(right)) => {
            on_partial_connect(alloc, scope, place, sink, left, source, right)
        }
        _ => Ok(()),
    }
}

/// The right side of a connect: its type, and what it reaches if it is a reference.
#[derive(Clone, Copy)]
pub struct Source {
    pub found: Found,
    pub reach: Option<Reach>,
}

fn in_source(
    alloc: Global,
    names: &Names,
    scope: &Scope,
    notes: &mut Vec<Note>,
    source: &Expr,
) -> Result<Option<Source>, Refused<FirFault>>
    ensures found { (typed : TypedScope) → Knows names.now scope.now typed → IsSource (types_of scope.now.table) typed (expr_of source.now) result }
    ensures notes { (typed : TypedScope) → Knows names.now scope.now typed → OnOk result (Noted (types_of scope.now.table) notes.old.items notes.new.items (expression_notes typed (expr_of source.now))) }
{
    if let Expr::Ref(reference) = source {
        return match in_reference(reference, alloc, names, scope, notes)? {
            Some(reach) => Ok(Some(Source {
                found: reach.found,
                reach: Some(reach),
            })),
            None => Ok(None),
        };
    }
    match in_expression(source, alloc, names, scope, notes)? {
        Some(found) => Ok(Some(Source { found, reach: None })),
        None => Ok(None),
    }
}

fn on_connect(
    alloc: Global,
    scope: &Scope,
    place: Place,
    sink: &Reference,
    left: Reach,
    source: &Expr,
    right: Source,
) -> Result<(), Refused<FirFault>>
    ensures { IsByReference (expr_of source.now) right.reach → Judges (connect_faults place (reached_as (types_of scope.now.table) (sink_path (sink_of sink.now)) left) (right_of (types_of scope.now.table) (expr_of source.now) right) (found_type (types_of scope.now.table) right.found)) result }
{
    if !fit(&scope.table, left.found, right.found) {
        let fault = wrong_types(alloc, &scope.table, place, left.found, right.found);
        return Err(fault);
    }
    let sides = Sides::of(left, right.reach);
    let leaf = sides.first_leaf(alloc, &scope.table, left.found)?;
    drives_a_source(alloc, place, sink, source, leaf)
}

fn on_partial_connect(
    alloc: Global,
    scope: &Scope,
    place: Place,
    sink: &Reference,
    left: Reach,
    source: &Expr,
    right: Source,
) -> Result<(), Refused<FirFault>>
    ensures { IsByReference (expr_of source.now) right.reach → Judges (partial_connect_faults place (reached_as (types_of scope.now.table) (sink_path (sink_of sink.now)) left) (right_of (types_of scope.now.table) (expr_of source.now) right) (found_type (types_of scope.now.table) right.found)) result }
{
    if !fit_partly(&scope.table, left.found, right.found) {
        let fault = wrong_types(alloc, &scope.table, place, left.found, right.found);
        return Err(fault);
    }
    let sides = Sides::of(left, right.reach);
    let leaf = sides.first_partial_leaf(alloc, &scope.table, left.found, right.found)?;
    drives_a_source(alloc, place, sink, source, leaf)
}

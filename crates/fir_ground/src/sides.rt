//! Both sides of a connect.

ghost use Rattle.std.specs.Prelude.{◌≡◌, ◌++◌, List, IfOk, None, Some};
ghost use Rattle.fir_ast.specs.Expressions.{Expression};
ghost use Rattle.fir_ast.specs.Types.{DataType};
ghost use Rattle.fir_ast.specs.working.Views.{expr_of, sink_of};
ghost use Rattle.fir_meaning.specs.working.Leafed.{target_read};
ghost use Rattle.fir_meaning.specs.Reaching.{Reached};
ghost use Rattle.fir_meaning.specs.TypedScopes.{TypedScope};
ghost use Rattle.fir_meaning.specs.working.WellTyped.{HasType, Reaches as ReachesThere};
ghost use Rattle.fir_types.specs.working.ModuleNotes.{connect_notes};
ghost use Rattle.fir_types.specs.working.Notes.{Note as Meant, expression_notes, of_expression};
ghost use Rattle.fir_types.specs.working.Noted.{note_seen};
ghost use Rattle.fir_types.specs.working.Seen.{found_type};
ghost use Rattle.fir_ground.specs.working.Connects.{ShowsSides};
ghost use Rattle.fir_ground.specs.working.Grounds.{Ahead, Enters};

use crate::expressions::in_reference;
use crate::ground::Ground;
use crate::notes::last_passed;
use crate::source::{Source, in_source};
use crate::walk::Walk;
use fir_ast::{Expr, Reference};
use fir_base::MemoryOut;
use fir_leaf_pairs::Target;
use fir_types::{Found, Note};
use std::alloc::Global;

/// What a connect drives, what it reads, and what that is found to be.
#[derive(Drop)]
pub struct Sides {
    pub left: Target,
    pub source: Source,
    pub found: Found,
}

/// The sink, and then the source.
pub fn in_sides<'a>(
    alloc: Global,
    ground: &Ground<'a>,
    walk: &mut Walk<'a>,
    sink: &'a Reference,
    source: &'a Expr,
) -> Result<Sides, MemoryOut>
    ensures { (typed : TypedScope) (r : Reached) (t : DataType) (rest : List Meant) → Enters ground.now typed (connect_notes typed (sink_of sink.now) (expr_of source.now) ++ rest) walk.old → ReachesThere typed (sink_of sink.now) r → HasType typed (expr_of source.now) t → IfOk result (λ sides. ShowsSides ground.now typed rest walk.old walk.new (sink_of sink.now) (expr_of source.now) t sides) }
{
    let left = in_reference(sink, alloc, ground, walk)?;
    let notes = walk.notes;
    let source = in_source(source, alloc, ground, walk)?;
    let found = match source.target {
        Some(target) => target.found,
        None => noted_last(notes, walk.notes),
    };
    Ok(Sides {
        left,
        source,
        found,
    })
}

/// What the expression is found to be of which the notes were the first of these, up to those that are
/// left; it is no reference.
fn noted_last(notes: &[Note], left: &[Note]) -> Found
    ensures { (ts : List DataType) (typed : TypedScope) (e : Expression) (t : DataType) (rest : List Meant) → Ahead ts notes.now (expression_notes typed e ++ rest) → Ahead ts left.now rest → target_read typed e ≡ None → HasType typed e t → found_type ts result ≡ t }
{
    match last_passed(notes, left) {
        Some(note) => noted(note),
        None => Found::AsyncReset,
    }
}

/// What a note tells of an expression that is no reference.
fn noted(note: &Note) -> Found
    ensures { (ts : List DataType) (t : DataType) → note_seen ts note.now ≡ of_expression (Some t) → found_type ts result ≡ t }
{
    match note {
        Note::Expression(Some(found)) => *found,
        _ => Found::AsyncReset,
    }
}

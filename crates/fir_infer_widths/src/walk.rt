//! How far the walk over a module has come.

ghost use Rattle.std.specs.Prelude.{◌≡◌, ◌+◌, ℕ, List, ◌∷◌, Some, slice_get};
ghost use Rattle.fir_ast.specs.Statements.{SinkReference};
ghost use Rattle.fir_ast.specs.Types.{DataType};
ghost use Rattle.fir_meaning.specs.Reaching.{Reached};
ghost use Rattle.fir_meaning.specs.TypedScopes.{TypedScope};
ghost use Rattle.fir_meaning.specs.SizedScopes.{SizedScope, sink_expression, sized_type};
ghost use Rattle.fir_meaning.specs.working.WellTyped.{Reaches};
ghost use Rattle.fir_meaning.specs.WidthExpressions.{Rule, Width};
ghost use Rattle.fir_type_table.specs.working.Saturated.{saturated};
ghost use Rattle.fir_types.specs.declared.found.Found.{Found as FoundOfCode};
ghost use Rattle.fir_types.specs.declared.note.LeafRange.{LeafRange as RangeOfCode};
ghost use Rattle.fir_types.specs.working.Notes.{Note as Meant, reference_note};
ghost use Rattle.fir_width.specs.working.Sides.{IsSide};
ghost use Rattle.fir_infer_widths.specs.working.Walks.{Ahead, Enters, types_in};

use crate::arena::Arena;
use crate::ground::Ground;
use crate::spot::Spot;
use fir_types::{LeafRange, Note};
use fir_width::Side;

/// What the walk has still to read, and what it has made.
#[derive(Drop)]
pub struct Walk<'a> {
    /// What is found of the expressions that come.
    pub notes: &'a [Note],
    /// How many are declared before the place.
    pub declared: usize,
    pub arena: Arena,
    pub spots: Vec<Spot<'a>>,
}

impl<'a> Walk<'a> {
    /// Passes the note of a form.
    pub fn pass_note(&mut self)
        ensures ahead { (ts : List DataType) (note : Meant) (rest : List Meant) → Ahead ts self.old.notes.now (note ∷ rest) → Ahead ts self.new.notes.now rest }
        ensures stays { self.new ≡ record self.old { notes = self.new.notes } }
    {
        if let [_, rest @ ..] = self.notes {
            self.notes = rest;
        }
    }

    /// What a reference names, by its note, which is passed.
    pub fn named(&mut self, ground: &Ground<'a>) -> Side
        ensures side { (typed : TypedScope) (sized : SizedScope) (s : SinkReference) (r : Reached) (meant : List Width) (rules : List Rule) (rest : List Meant) → Enters ground.now typed sized meant rules (reference_note typed s ∷ rest) self.old → Reaches typed s r → IsSide (types_in ground.now) meant result (sized_type sized (sink_expression s)) }
        ensures ahead { (ts : List DataType) (note : Meant) (rest : List Meant) → Ahead ts self.old.notes.now (note ∷ rest) → Ahead ts self.new.notes.now rest }
        ensures stays { self.new ≡ record self.old { notes = self.new.notes } }
    {
        // Each leaf has a number, so these numbers do not stand still.
        let _numbers = self.arena.len();
        let [note, rest @ ..] = self.notes else {
            return Side::NOTHING;
        };
        self.notes = rest;
        match note {
            Note::Reference(range) => side_of(ground, range),
            Note::Expression(_) => Side::NOTHING,
        }
    }

    /// What is declared at the place, which is passed.
    pub fn declare(&mut self, ground: &Ground<'a>) -> Side
        ensures { (position : ℕ) (found : FoundOfCode) (first : ℕ) → self.old.declared ≡ position → slice_get ground.now.declared.now position ≡ Some (Some found) → slice_get ground.now.first_leaves.now position ≡ Some first → (result ≡ record { found = found; first = first }) × (self.new ≡ record self.old { declared = position + 1 }) }
    {
        let position = self.declared;
        match (
            ground.declared.get(position),
            ground.first_leaves.get(position),
        ) {
            (Some(Some(found)), Some(first)) => {
                self.declared += 1;
                Side {
                    found: *found,
                    first: first.number(),
                }
            }
            _ => Side::NOTHING,
        }
    }
}

/// The leaves that a reference names, if it names some.
fn side_of(ground: &Ground, range: &Option<LeafRange>) -> Side
    ensures { (own : RangeOfCode) (first : ℕ) → range.now ≡ Some own → slice_get ground.now.first_leaves.now own.declaration ≡ Some first → result ≡ record { found = own.found; first = saturated (first + own.shared_offset) } }
{
    let Some(range) = range else {
        return Side::NOTHING;
    };
    match ground.first_leaves.get(range.declaration) {
        Some(first) => Side {
            found: range.found,
            first: first.number().saturating_add(range.shared_offset as usize),
        },
        None => Side::NOTHING,
    }
}

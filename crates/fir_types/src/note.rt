//! What the walk has found of each expression, for the passes behind.

ghost use Rattle.std.specs.Prelude.{◌≡◌, [], ◌∷◌, OnOk};
ghost use Rattle.fir_ast.specs.Types.{DataType};
ghost use Rattle.fir_meaning.specs.Checked.{Checked};
ghost use Rattle.fir_type_table.specs.working.Tables.{types_of};
ghost use Rattle.fir_types.specs.working.Judged.{Finds};
ghost use Rattle.fir_types.specs.working.Notes.{of_expression};
ghost use Rattle.fir_types.specs.working.Noted.{IsReferenceNote, Noted};
ghost use Rattle.fir_types.specs.working.Seen.{found_type};

use crate::found::Found;
use crate::reach::Reach;
use crate::scope::Scope;
use fir_ast::FirFault;
use fir_base::{MemoryOut, Refused};

/// The elements of a vector, of which a dynamic index picks one.
#[derive(Clone, Copy)]
pub struct Pick {
    /// How many leaves each has; at most 2^64 - 1.
    pub stride: u64,
    /// How many there are.
    pub length: u128,
}

/// The leaves that a reference names: all those of its type, from one on.
#[derive(Drop)]
pub struct LeafRange {
    /// How many are declared in the module before what it names.
    pub declaration: usize,
    pub found: Found,
    /// How many leaves of what it names stand before the first; at most 2^64 - 1. A dynamic index counts
    /// as 0.
    pub offset: u64,
    /// The same where all elements of a vector share their leaves.
    pub shared_offset: u64,
    /// What its dynamic indices pick, in the order of the text.
    pub picks: Vec<Pick>,
}

/// What is found of an expression. Where it is nothing, as a name that is not declared, it is None.
#[derive(Drop)]
pub enum Note {
    /// The type of a literal, an operation, a mux or a validif.
    Expression(Option<Found>),
    Reference(Option<LeafRange>),
}

/// Notes what an expression is found to be.
pub fn note_expression(
    scope: &Scope,
    notes: &mut Vec<Note>,
    found: Result<Option<Found>, Refused<FirFault>>,
) -> Result<Option<Found>, Refused<FirFault>>
    ensures found { (c : Checked DataType) → Finds (found_type (types_of scope.now.table)) c found → Finds (found_type (types_of scope.now.table)) c result }
    ensures notes { (c : Checked DataType) → Finds (found_type (types_of scope.now.table)) c found → OnOk result (Noted (types_of scope.now.table) notes.old.items notes.new.items (of_expression c.has ∷ [])) }
{
    let found = found?;
    notes.push(Note::Expression(scope.held(found)))?;
    Ok(found)
}

/// Notes what a reference reaches, with what its indices pick.
pub fn note_reference(
    scope: &Scope,
    notes: &mut Vec<Note>,
    reached: Option<Reach>,
    picks: Vec<Pick>,
) -> Result<(), MemoryOut>
    ensures { OnOk result (IsReferenceNote (types_of scope.now.table) reached picks.items notes.old.items notes.new.items) }
{
    let range = match reached {
        Some(reached) => Some(LeafRange {
            declaration: reached.declaration,
            found: scope.held_type(reached.found),
            offset: reached.offset,
            shared_offset: reached.shared_offset,
            picks,
        }),
        None => None,
    };
    notes.push(Note::Reference(range))?;
    Ok(())
}

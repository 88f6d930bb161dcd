//! The notes that the walk passes.

ghost use Rattle.std.specs.Prelude.{◌≡◌, ◌∷◌, ◌++◌, List, option_copied, option_map};
ghost use Rattle.fir_ast.specs.Types.{DataType};
ghost use Rattle.fir_types.specs.working.Noted.{note_seen, saturated_note};
ghost use Rattle.fir_types.specs.working.Notes.{Note as Meant};
ghost use Rattle.fir_ground.specs.working.Grounds.{Ahead};

use crate::walk::Walk;
use fir_types::Note;

impl<'a> Walk<'a> {
    /// Passes the note of a form.
    pub fn pass_note(&mut self)
        ensures ahead { (ts : List DataType) (note : Meant) (rest : List Meant) → Ahead ts self.old.notes.now (note ∷ rest) → Ahead ts self.new.notes.now rest }
        ensures nodes { self.new.nodes ≡ self.old.nodes }
        ensures drivers { self.new.drivers ≡ self.old.drivers }
    {
        if let [_, rest @ ..] = self.notes {
            self.notes = rest;
        }
    }
}

/// The last note that is passed, of those that are ahead, up to those that are left.
pub fn last_passed<'a>(ahead: &'a [Note], left: &[Note]) -> Option<&'a Note>
    ensures { (ts : List DataType) (before : List Meant) (note : Meant) (rest : List Meant) → Ahead ts ahead.now (before ++ note ∷ rest) → Ahead ts left.now rest → option_map (note_seen ts) (option_copied result) ≡ Some (saturated_note note) }
{
    let passed = ahead.len().saturating_sub(left.len());
    ahead.get(passed.saturating_sub(1))
}

//! What tells whether the reset of a register is asynchronous (FIRRTL spec, "Reset Type", "Reset Inference").

ghost use Rattle.std.specs.Prelude.{◌≡◌, Option, if◌then◌else◌, map, option_copied, option_map};
ghost use Rattle.fir_ast.specs.Types.{DataType};
ghost use Rattle.fir_type_table.specs.working.Saturated.{saturated};
ghost use Rattle.fir_type_table.specs.working.Tables.{types_of};
ghost use Rattle.fir_types.specs.working.Noted.{note_seen, pick_seen};
ghost use Rattle.fir_types.specs.working.Notes.{LeafRange as RangeMeant, of_expression, of_reference};
ghost use Rattle.fir_types.specs.working.Sorts.{sort_of};
ghost use Rattle.fir_ground.specs.working.ResetKinds.{all_there, inferred_by, inferred_kind, kind_by, kind_seen, synchronous_kind};

use fir_type_table::TypeTable;
use fir_types::found::sort;
use fir_types::{Note, Pick, Sort};

/// What the type of a reset's condition tells.
#[derive(Clone, Copy, PartialEq, Eq)]
pub enum ResetKind {
    /// A UInt of one bit; or a Reset below a vector without elements, where zeros are read.
    Synchronous,
    /// An AsyncReset.
    Asynchronous,
    /// A Reset, of which it is inferred: a leaf of what is declared behind so many declarations of the module,
    /// and how many leaves of it stand before that one, where all elements of a vector share their leaves.
    Inferred(usize, u64),
}

/// What tells it of the condition that has this note, if it has one.
pub(crate) fn reset_kind(table: &TypeTable, note: Option<&Note>) -> ResetKind
    ensures expression { (t : Option DataType) → option_map (note_seen (types_of table.now)) (option_copied note.entry) ≡ Some (of_expression t) → kind_seen result ≡ kind_by None t }
    ensures reference { (r : Option RangeMeant) → option_map (note_seen (types_of table.now)) (option_copied note.entry) ≡ Some (of_reference r) → kind_seen result ≡ kind_by r (option_map (λ x. x.data_type) r) }
{
    match note {
        Some(Note::Expression(Some(found))) => {
            kind_of_sort(sort(table, *found), ResetKind::Synchronous)
        }
        Some(Note::Reference(Some(range))) => kind_of_sort(
            sort(table, range.found),
            inferred(range.declaration, range.shared_offset, &range.picks),
        ),
        _ => ResetKind::Synchronous,
    }
}

/// What tells it of a condition whose type is of that sort, and of which this is inferred if it is a Reset.
fn kind_of_sort(sort: Sort, inferred: ResetKind) -> ResetKind
    ensures { (r : Option RangeMeant) (t : DataType) → sort ≡ sort_of t → kind_seen inferred ≡ inferred_by r → kind_seen result ≡ kind_by r (Some t) }
{
    match sort {
        Sort::AsyncReset => ResetKind::Asynchronous,
        Sort::Reset => inferred,
        _ => ResetKind::Synchronous,
    }
}

/// What is inferred of a Reset, by the range of the reference that names it.
fn inferred(declaration: usize, shared_offset: u64, picks: &[Pick]) -> ResetKind
    ensures { kind_seen result ≡ (if all_there (map pick_seen picks.now) then inferred_kind declaration (saturated shared_offset) else synchronous_kind) }
{
    if all_there(picks) {
        ResetKind::Inferred(declaration, shared_offset)
    } else {
        ResetKind::Synchronous
    }
}

/// Whether each vector that an index picks from has elements.
fn all_there(picks: &[Pick]) -> bool
    ensures { result ≡ all_there (map pick_seen picks.now) }
{
    for pick in picks {
        if pick.length == 0 {
            return false;
        }
    }
    true
}

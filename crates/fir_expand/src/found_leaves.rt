//! The leaves of what is found of a module: of its expressions, and of what it declares.

ghost use Rattle.std.specs.Prelude.{◌≡◌, ◌*◌, ℕ, map};
ghost use Rattle.fir_type_table.specs.working.Saturated.{saturated};
ghost use Rattle.fir_type_table.specs.working.Tables.{types_of};
ghost use Rattle.fir_types.specs.working.Noted.{note_seen, pick_seen, range_seen};
ghost use Rattle.fir_types.specs.working.Seen.{seen};
ghost use Rattle.fir_meaning.specs.Costs.{leaves_where, sum_of};
ghost use Rattle.fir_expand.specs.working.OwnSums.{leaves_noted, leaves_of_range, picked};

use fir_type_table::{TypeTable, times};
use fir_types::found::leaves;
use fir_types::{Found, LeafRange, Note, Pick};

/// How many leaves come together in expressions, of which these are the notes; at most 2^64 - 1.
pub fn leaves_of_notes(table: &TypeTable, notes: &[Note]) -> u64
    ensures { result ≡ saturated (sum_of (map leaves_noted (map (note_seen (types_of table.now)) notes.now))) }
{
    let mut sum: u64 = 0;
    for note in notes {
        sum = sum.saturating_add(leaves_of_note(table, note));
    }
    sum
}

/// The leaves of one expression or reference; at most 2^64 - 1.
fn leaves_of_note(table: &TypeTable, note: &Note) -> u64
    ensures { result ≡ saturated (leaves_noted (note_seen (types_of table.now) note.now)) }
{
    match note {
        Note::Expression(found) => leaves_of_found(table, *found),
        Note::Reference(Some(range)) => leaves_of_range(table, range),
        Note::Reference(None) => 0,
    }
}

/// The leaves that a reference may name; at most 2^64 - 1.
fn leaves_of_range(table: &TypeTable, range: &LeafRange) -> u64
    ensures { result ≡ saturated (leaves_of_range (range_seen (types_of table.now) range.now)) }
{
    times_picked(&range.picks, leaves(table, range.found))
}

/// A number for each of the elements that indices may pick, where a vector counts as one element at least; at
/// most 2^64 - 1.
fn times_picked(picks: &[Pick], number: u64) -> u64
    ensures { (n : ℕ) → number ≡ saturated n → result ≡ saturated (n * picked (map pick_seen picks.now)) }
{
    let mut product = number;
    for pick in picks {
        product = times(pick.length.max(1), product);
    }
    product
}

/// How many leaves all that is declared has; at most 2^64 - 1.
pub fn leaves_declared(table: &TypeTable, declared: &[Option<Found>]) -> u64
    ensures { result ≡ saturated (sum_of (map leaves_where (map (seen (types_of table.now)) declared.now))) }
{
    let mut sum: u64 = 0;
    for found in declared {
        sum = sum.saturating_add(leaves_of_found(table, *found));
    }
    sum
}

/// The leaves of a type; of what has no type, none.
fn leaves_of_found(table: &TypeTable, found: Option<Found>) -> u64
    ensures { result ≡ saturated (leaves_where (seen (types_of table.now) found)) }
{
    match found {
        Some(found) => leaves(table, found),
        None => 0,
    }
}

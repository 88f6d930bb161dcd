//! How many leaves of a type stand before one of them, where all elements of a vector share their leaves.

ghost use Rattle.std.specs.Prelude.{◌≡◌, ◌+◌, [], option_map};
ghost use Rattle.fir_meaning.specs.LeafPaths.{element};
ghost use Rattle.fir_type_table.specs.working.Saturated.{saturated};
ghost use Rattle.fir_type_table.specs.working.Tables.{types_of};
ghost use Rattle.fir_types.specs.working.Seen.{found_type};
ghost use Rattle.fir_infer_resets.specs.working.Holding.{path_of, step_of};
ghost use Rattle.fir_reset.specs.working.LeafClasses.{offset_in};
ghost use Rattle.fir_infer_resets.specs.working.NumberedPaths.{StepsTo};

use crate::item::Step;
use fir_type_table::TypeTable;
use fir_types::found::{elements, field, sort};
use fir_types::{Found, Sort};

/// How many leaves stand before that of a path; at most 2^64 - 1. Where no leaf has the path it is None.
pub fn leaves_before(table: &TypeTable, found: Found, path: &[Step]) -> Option<u64>
    ensures { result ≡ option_map saturated (offset_in (found_type (types_of table.now) found) (path_of path.now)) }
{
    let mut reached = found;
    let mut before = 0u64;
    for step in path {
        let (next, more) = behind(table, reached, step)?;
        reached = next;
        before = before.saturating_add(more);
    }
    at_leaf(table, reached, before)
}

/// So many, where the type is a ground type and so one leaf.
fn at_leaf(table: &TypeTable, found: Found, before: u64) -> Option<u64>
    ensures { result ≡ option_map (λ k. saturated (before + k)) (offset_in (found_type (types_of table.now) found) []) }
{
    match sort(table, found) {
        Sort::Bundle | Sort::Vector => None,
        Sort::UInt | Sort::SInt | Sort::Clock | Sort::Reset | Sort::AsyncReset => Some(before),
    }
}

/// What a step leads to, and how many leaves stand before those of it.
fn behind(table: &TypeTable, found: Found, step: &Step) -> Option<(Found, u64)>
    ensures { StepsTo (types_of table.now) (found_type (types_of table.now) found) (step_of step.now) result }
{
    match step {
        Step::Named(name) => {
            let field = field(table, found, name)?;
            Some((field.found, field.shared_offset))
        }
        Step::Element(index) => at_element(table, found, *index),
    }
}

fn at_element(table: &TypeTable, found: Found, index: u128) -> Option<(Found, u64)>
    ensures { StepsTo (types_of table.now) (found_type (types_of table.now) found) (element index) result }
{
    let (element, length) = elements(table, found)?;
    if index < length {
        Some((element, 0))
    } else {
        None
    }
}

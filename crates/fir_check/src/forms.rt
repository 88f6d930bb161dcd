//! What the forms of expressions say of operands that have types.

ghost use Rattle.std.specs.Prelude.{◌≡◌};
ghost use Rattle.fir_meaning.specs.ExpressionTypes.{passive_at, type_of_mux, type_of_validif, unsigned_at};
ghost use Rattle.fir_type_table.specs.working.Tables.{types_of};
ghost use Rattle.fir_types.specs.working.Judged.{Says};
ghost use Rattle.fir_types.specs.working.Seen.{found_type};

use crate::faults::{not_passive, wrong_kind, wrong_kinds, wrong_types};
use crate::found_pairs::are_equivalent;
use fir_ast::{FirFault, Place};
use fir_base::Refused;
use fir_type_table::TypeTable;
use fir_types::found::{bare, is_numeric, is_passive, sort};
use fir_types::{Found, Sort};
use std::alloc::Global;

/// A condition or an index is a UInt.
pub fn unsigned_at(
    alloc: Global,
    table: &TypeTable,
    place: Place,
    found: Found,
) -> Result<Found, Refused<FirFault>>
    ensures { Says (found_type (types_of table.now)) (unsigned_at place (found_type (types_of table.now) found)) result }
{
    if sort(table, found) == Sort::UInt {
        Ok(found)
    } else {
        Err(wrong_kind(alloc, table, place, found))
    }
}

/// An operand of a mux or a validif has no flips.
pub fn passive_at(
    alloc: Global,
    table: &TypeTable,
    place: Place,
    found: Found,
) -> Result<Found, Refused<FirFault>>
    ensures { Says (found_type (types_of table.now)) (passive_at place (found_type (types_of table.now) found)) result }
{
    if is_passive(table, found) {
        Ok(found)
    } else {
        Err(not_passive(alloc, table, place, found))
    }
}

/// A mux is as its arms, which are of UInt and SInt alone, and equivalent.
pub fn mux_type(
    alloc: Global,
    table: &TypeTable,
    place: Place,
    one: Found,
    other: Found,
) -> Result<Found, Refused<FirFault>>
    ensures { Says (found_type (types_of table.now)) (type_of_mux place (found_type (types_of table.now) one, found_type (types_of table.now) other)) result }
{
    if !is_numeric(table, one) || !is_numeric(table, other) {
        return Err(wrong_kinds(alloc, table, place, &[one, other]));
    }
    if are_equivalent(table, one, other) {
        Ok(bare(one))
    } else {
        Err(wrong_types(alloc, table, place, one, other))
    }
}

/// A validif is as its value, which is of UInt and SInt alone.
pub fn validif_type(
    alloc: Global,
    table: &TypeTable,
    place: Place,
    found: Found,
) -> Result<Found, Refused<FirFault>>
    ensures { Says (found_type (types_of table.now)) (type_of_validif place (found_type (types_of table.now) found)) result }
{
    if is_numeric(table, found) {
        Ok(bare(found))
    } else {
        Err(wrong_kind(alloc, table, place, found))
    }
}

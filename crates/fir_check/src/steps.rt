//! A step of a reference, from what the parts before it reach.

ghost use Rattle.std.specs.Prelude.{◌≡◌, ℕ, ◌+◌, ◌*◌, [], ◌∷◌, ◌++◌, IfOk};
ghost use Rattle.fir_meaning.specs.LeafPaths.{LeafPath, element, named};
ghost use Rattle.fir_meaning.specs.Reaching.{field_of_type, to_any, to_field, to_index, vector_of_type};
ghost use Rattle.fir_type_table.specs.working.Saturated.{saturated};
ghost use Rattle.fir_type_table.specs.working.Tables.{types_of};
ghost use Rattle.fir_types.specs.working.Judged.{Says};
ghost use Rattle.fir_types.specs.working.Notes.{element_range, field_range};
ghost use Rattle.fir_types.specs.working.Noted.{PicksTo, StepsTo};
ghost use Rattle.fir_types.specs.working.Seen.{reached_as};

use crate::faults::{no_field, wrong_kind};
use fir_ast::{FirFault, Place};
use fir_base::{Name, Refused};
use fir_type_table::TypeTable;
use fir_types::found::{elements, field, leaves};
use fir_types::{Pick, Reach};
use std::alloc::Global;

/// A field.
pub fn to_field(
    alloc: Global,
    table: &TypeTable,
    place: Place,
    reached: Reach,
    name: &Name,
) -> Result<Reach, Refused<FirFault>>
    ensures reached { (path : LeafPath) → Says (reached_as (types_of table.now) (path ++ named name.now ∷ [])) (to_field place name.now (reached_as (types_of table.now) path reached)) result }
    ensures range { IfOk result (λ s. StepsTo (types_of table.now) (λ r. field_range name.now r (field_of_type name.now r.data_type)) reached s) }
{
    match field(table, reached.found, name) {
        Some(field) => Ok(Reach {
            declaration: reached.declaration,
            found: field.found,
            flow: reached.flow.under(field.flip),
            leads: reached.leads,
            offset: reached.offset.saturating_add(field.offset),
            shared_offset: reached.shared_offset.saturating_add(field.shared_offset),
        }),
        None => Err(no_field(alloc, place, name)),
    }
}

/// The element of that number.
pub fn to_index(
    alloc: Global,
    table: &TypeTable,
    place: Place,
    reached: Reach,
    index: u128,
) -> Result<Reach, Refused<FirFault>>
    ensures reached { (path : LeafPath) → Says (reached_as (types_of table.now) (path ++ element index ∷ [])) (to_index place index (reached_as (types_of table.now) path reached)) result }
    ensures range { IfOk result (λ s. StepsTo (types_of table.now) (λ r. element_range index r (vector_of_type r.data_type)) reached s) }
{
    let Some((found, length)) = elements(table, reached.found) else {
        return Err(wrong_kind(alloc, table, place, reached.found));
    };
    if index < length {
        Ok(Reach {
            declaration: reached.declaration,
            found,
            flow: reached.flow,
            leads: reached.leads,
            offset: past_elements(reached.offset, index, leaves(table, found)),
            shared_offset: reached.shared_offset,
        })
    } else {
        Err(Refused::Fault(FirFault::OutOfRange(place, index, length)))
    }
}

/// So many elements further; at most 2^64 - 1.
fn past_elements(offset: u64, index: u128, stride: u64) -> u64
    ensures { (k n : ℕ) → offset ≡ saturated k → stride ≡ saturated n → result ≡ saturated (k + index * n) }
{
    let elements = index.saturating_mul(u128::from(stride));
    let sum = elements.saturating_add(u128::from(offset));
    u64::try_from(sum).unwrap_or(u64::MAX)
}

/// The element that a UInt picks.
pub fn to_any(
    alloc: Global,
    table: &TypeTable,
    place: Place,
    reached: Reach,
    picks: &mut Vec<Pick>,
) -> Result<Reach, Refused<FirFault>>
    ensures reached { (path : LeafPath) → Says (reached_as (types_of table.now) (path ++ element 0 ∷ [])) (to_any place (reached_as (types_of table.now) path reached)) result }
    ensures range { IfOk result (λ s. PicksTo (types_of table.now) reached picks.old.items s picks.new.items) }
{
    let Some((found, length)) = elements(table, reached.found) else {
        return Err(wrong_kind(alloc, table, place, reached.found));
    };
    picks.push(Pick {
        stride: leaves(table, found),
        length,
    })?;
    Ok(Reach {
        declaration: reached.declaration,
        found,
        flow: reached.flow,
        leads: reached.leads && length > 0,
        offset: reached.offset,
        shared_offset: reached.shared_offset,
    })
}

//! Steps of a reference, on what the parts before them are found to reach.

ghost use Rattle.std.specs.Prelude.{◌≡◌, [], ◌∷◌, ◌++◌, IfOk, option_map};
ghost use Rattle.fir_meaning.specs.LeafPaths.{LeafPath, element, named};
ghost use Rattle.fir_meaning.specs.Reaching.{field_of_type, vector_of_type};
ghost use Rattle.fir_meaning.specs.ExpressionTypes.{access_form, field_form, index_form};
ghost use Rattle.fir_type_table.specs.working.Tables.{types_of};
ghost use Rattle.fir_types.specs.working.Judged.{OnOne, OnTwo};
ghost use Rattle.fir_types.specs.working.Notes.{element_range, field_range};
ghost use Rattle.fir_types.specs.working.Noted.{MayPickTo, MayStepTo};
ghost use Rattle.fir_types.specs.working.Seen.{reached_as, seen};

use crate::steps::{to_any, to_field, to_index};
use fir_ast::{FirFault, Place};
use fir_base::{Name, Refused};
use fir_type_table::TypeTable;
use fir_types::{Found, Pick, Reach};
use std::alloc::Global;

pub fn on_field(
    alloc: Global,
    table: &TypeTable,
    place: Place,
    reached: Option<Reach>,
    name: &Name,
) -> Result<Option<Reach>, Refused<FirFault>>
    ensures reached { (path : LeafPath) → OnOne (reached_as (types_of table.now) (path ++ named name.now ∷ [])) (field_form place name.now) (option_map (reached_as (types_of table.now) path) reached) result }
    ensures range { IfOk result (λ y. MayStepTo (types_of table.now) (λ r. field_range name.now r (field_of_type name.now r.data_type)) reached y) }
{
    match reached {
        Some(reached) => Ok(Some(to_field(alloc, table, place, reached, name)?)),
        None => Ok(None),
    }
}

pub fn on_index(
    alloc: Global,
    table: &TypeTable,
    place: Place,
    reached: Option<Reach>,
    index: u128,
) -> Result<Option<Reach>, Refused<FirFault>>
    ensures reached { (path : LeafPath) → OnOne (reached_as (types_of table.now) (path ++ element index ∷ [])) (index_form place index) (option_map (reached_as (types_of table.now) path) reached) result }
    ensures range { IfOk result (λ y. MayStepTo (types_of table.now) (λ r. element_range index r (vector_of_type r.data_type)) reached y) }
{
    match reached {
        Some(reached) => Ok(Some(to_index(alloc, table, place, reached, index)?)),
        None => Ok(None),
    }
}

pub fn on_access(
    alloc: Global,
    table: &TypeTable,
    place: Place,
    reached: Option<Reach>,
    index: Option<Found>,
    picks: &mut Vec<Pick>,
) -> Result<Option<Reach>, Refused<FirFault>>
    ensures reached { (path : LeafPath) → OnTwo (reached_as (types_of table.now) (path ++ element 0 ∷ [])) (access_form place) (option_map (reached_as (types_of table.now) path) reached) (seen (types_of table.now) index) result }
    ensures range { IfOk result (λ y. MayPickTo (types_of table.now) reached picks.old.items y picks.new.items) }
{
    match (reached, index) {
        (Some(reached), Some(_)) => Ok(Some(to_any(alloc, table, place, reached, picks)?)),
        _ => Ok(None),
    }
}

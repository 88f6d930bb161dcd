//! The faults of types, with the types in them.

ghost use Rattle.std.specs.Prelude.{◌≡◌, [], ◌∷◌, IfOk, map};
ghost use Rattle.fir_ast.specs.working.TypeViews.{type_of};
ghost use Rattle.fir_meaning.specs.KindFaults.{no_field, not_passive, wrong_kinds, wrong_types};
ghost use Rattle.fir_type_table.specs.working.Tables.{types_of};
ghost use Rattle.fir_types.specs.working.Judged.{IsFault};
ghost use Rattle.fir_types.specs.working.Seen.{found_type};

use fir_ast::{FirFault, Place, Ty};
use fir_base::{MemoryOut, Name, Refused, Seq};
use fir_type_table::TypeTable;
use fir_types::Found;
use fir_types::found::ty;
use std::alloc::Global;

/// E12 of one type.
pub fn wrong_kind(alloc: Global, table: &TypeTable, place: Place, found: Found) -> Refused<FirFault>
    ensures { IsFault (wrong_kinds place (found_type (types_of table.now) found ∷ [])) result }
{
    wrong_kinds(alloc, table, place, &[found])
}

/// E12 of several types.
pub fn wrong_kinds(
    alloc: Global,
    table: &TypeTable,
    place: Place,
    operands: &[Found],
) -> Refused<FirFault>
    ensures { IsFault (wrong_kinds place (map (found_type (types_of table.now)) operands.now)) result }
{
    match kinds_of(alloc, table, operands) {
        Ok(types) => Refused::Fault(FirFault::Kinds(place, types)),
        Err(MemoryOut) => Refused::Memory,
    }
}

fn kinds_of(alloc: Global, table: &TypeTable, operands: &[Found]) -> Result<Seq<Ty>, MemoryOut>
    ensures { IfOk result (λ ts. map type_of ts ≡ map (found_type (types_of table.now)) operands.now) }
{
    let mut types = Vec::new(alloc);
    for found in operands {
        types.push(ty(alloc, table, *found)?)?;
    }
    Ok(Seq::from_vec(types))
}

/// E12 of a field that is not there.
pub fn no_field(alloc: Global, place: Place, name: &Name) -> Refused<FirFault>
    ensures { IsFault (no_field place name.now) result }
{
    match name.copy(alloc) {
        Ok(name) => Refused::Fault(FirFault::NoField(place, name)),
        Err(MemoryOut) => Refused::Memory,
    }
}

/// E13.
pub fn wrong_types(
    alloc: Global,
    table: &TypeTable,
    place: Place,
    a: Found,
    b: Found,
) -> Refused<FirFault>
    ensures { IsFault (wrong_types place (found_type (types_of table.now) a) (found_type (types_of table.now) b)) result }
{
    match (ty(alloc, table, a), ty(alloc, table, b)) {
        (Ok(a), Ok(b)) => Refused::Fault(FirFault::Types(place, a, b)),
        _ => Refused::Memory,
    }
}

/// E15.
pub fn not_passive(
    alloc: Global,
    table: &TypeTable,
    place: Place,
    found: Found,
) -> Refused<FirFault>
    ensures { IsFault (not_passive place (found_type (types_of table.now) found)) result }
{
    match ty(alloc, table, found) {
        Ok(ty) => Refused::Fault(FirFault::NotPassive(place, ty)),
        Err(MemoryOut) => Refused::Memory,
    }
}

//! The faults of names.

ghost use Rattle.std.specs.Prelude.{◌≡◌, IfOk};
ghost use Rattle.fir_ast.specs.working.CodeFaults.{fault_of};
ghost use Rattle.fir_meaning.specs.NameGroups as group;

use fir_ast::{FirFault, Place};
use fir_base::{MemoryOut, Name};
use std::alloc::Global;

/// E08: a name or a module that is not visible.
pub fn unknown(alloc: Global, place: Place, name: &Name) -> Result<FirFault, MemoryOut>
    ensures { IfOk result (λ f. fault_of f ≡ group.unknown_name place name.now) }
{
    Ok(FirFault::Unknown(place, name.copy(alloc)?))
}

/// E09: a second declaration of a name, and the place of the first.
pub fn twice(alloc: Global, place: Place, name: &Name, first: Place) -> Result<FirFault, MemoryOut>
    ensures { IfOk result (λ f. fault_of f ≡ group.twice place name.now first) }
{
    Ok(FirFault::Twice(place, name.copy(alloc)?, first))
}

/// E10: a circuit without a module of its name.
pub fn no_module(alloc: Global, place: Place, name: &Name) -> Result<FirFault, MemoryOut>
    ensures { IfOk result (λ f. fault_of f ≡ group.no_module place name.now) }
{
    Ok(FirFault::NoModule(place, name.copy(alloc)?))
}

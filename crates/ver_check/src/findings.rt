//! Faults as they are found.

ghost use Rattle.std.specs.Prelude.{◌≡◌, ◌++◌, IfOk, [], ◌∷◌, List};
ghost use Rattle.ver_fault.specs.Faults.{VFault};
ghost use Rattle.ver_check.specs.FaultForms.{twice_fault, undeclared_fault};
ghost use Rattle.ver_check.specs.working.Findings.{Finds, IsFirst};

use fir_base::{MemoryOut, Name, Refused};
use std::alloc::Global;
use ver_ast::VPlace;
use ver_fault::VerFault;

/// Nothing, or this fault.
pub fn refuse(fault: Option<VerFault>) -> Result<(), Refused<VerFault>>
    ensures { (fs : List VFault) → IsFirst fault fs → Finds result fs }
{
    match fault {
        None => Ok(()),
        Some(fault) => Err(Refused::Fault(fault)),
    }
}

/// The first of two, where the first one stands before the second one.
pub fn first(one: Option<VerFault>, two: Option<VerFault>) -> Option<VerFault>
    ensures { (fs gs : List VFault) → IsFirst one fs → IsFirst two gs → IsFirst result (fs ++ gs) }
{
    match one {
        None => two,
        Some(fault) => Some(fault),
    }
}

/// A name that is not declared.
pub fn undeclared(alloc: Global, place: VPlace, name: &Name) -> Result<VerFault, MemoryOut>
    ensures { IfOk result (λ f. IsFirst (Some f) (undeclared_fault place name.now ∷ [])) }
{
    Ok(VerFault::Undeclared {
        place,
        name: name.copy(alloc)?,
    })
}

/// A name that is declared or driven already.
pub fn twice(
    alloc: Global,
    place: VPlace,
    name: &Name,
    first: VPlace,
) -> Result<VerFault, MemoryOut>
    ensures { IfOk result (λ f. IsFirst (Some f) (twice_fault place name.now first ∷ [])) }
{
    Ok(VerFault::Twice {
        place,
        name: name.copy(alloc)?,
        first,
    })
}

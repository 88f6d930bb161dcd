//! Which modules have copies in a design (FIRRTL spec, "Instances").

ghost use Rattle.std.specs.Prelude.{◌≡◌, IfOk, Some, slice_get, slice_set, true};
ghost use Rattle.std.specs.Bool.{Decides};
ghost use Rattle.fir_memory_clocks.specs.working.HeldModules.{AreHeld};

use fir_base::MemoryOut;
use fir_elaborate::ModuleCopy;
use std::alloc::Global;

/// Which of so many modules have one of these copies, by their numbers.
pub fn held_modules(
    alloc: Global,
    count: usize,
    copies: &[ModuleCopy],
) -> Result<Vec<bool>, MemoryOut>
    ensures { IfOk result (λ held. AreHeld count copies.now held.items) }
{
    let mut held = vec![in alloc; false; count]?;
    for copy in copies {
        hold(copy.module_number, &mut held);
    }
    Ok(held)
}

/// Marks a module that is there.
fn hold(number: usize, held: &mut [bool])
    ensures { held.new ≡ slice_set held.old number true }
{
    if number < held.len() {
        held[number] = true;
    }
}

/// Whether the module of a number is marked.
pub fn is_held(held: &[bool], number: usize) -> bool
    ensures { Decides result (slice_get held.now number ≡ Some true) }
{
    matches!(held.get(number), Some(true))
}

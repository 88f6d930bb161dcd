//! The least widths that meet bounds, by a list of those that have to be looked at.

ghost use Rattle.std.specs.Prelude.{◌≡◌, length, IfOk};
ghost use Rattle.fir_least_widths.specs.working.Bounds.{BoundsWithin, IsLeast};
ghost use Rattle.fir_meaning.specs.working.AssignedWidths.{assigned};

use crate::bound::Bound;
use crate::raise::raise;
use crate::readers::readers_of;
use crate::waiting::Waiting;
use fir_base::MemoryOut;
use fir_bits::laws::monotone;
use std::alloc::Global;

/// The least widths in bits of so many unknowns that meet the bounds, where 129 stands for all that
/// is over 128 (FIRRTL spec, "Width Inference").
///
/// A bound is looked at again only where an unknown that its term reads has risen, and none rises
/// more than 129 times. So there are at most as many looks as bounds, and 129 for each unknown and
/// for each time that a bound reads one. Memory is taken in proportion to bounds and unknowns.
pub fn least_widths(alloc: Global, bounds: &[Bound], unknowns: usize) -> Result<Vec<u32>, MemoryOut>
    requires { BoundsWithin bounds.now unknowns }
    ensures long { IfOk result (λ w. length w.items ≡ unknowns) }
    ensures least { IfOk result (λ w. IsLeast bounds.now (assigned w.items)) }
{
    monotone();
    let readers = readers_of(alloc, bounds, unknowns)?;
    let mut widths = vec![in alloc; 0u32; unknowns]?;
    let mut waiting = Waiting::all(alloc, bounds.len())?;
    while let Some(place) = waiting.take() {
        let bound = bounds[place];
        if raise(&bound, &mut widths) {
            waiting.add_all(readers[bound.unknown].as_slice())?;
        }
    }
    Ok(widths)
}

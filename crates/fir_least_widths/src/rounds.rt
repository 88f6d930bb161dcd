//! The least widths that meet bounds, by going over all of them until nothing rises.

ghost use Rattle.std.specs.Prelude.{◌≡◌, length, IfOk};
ghost use Rattle.fir_least_widths.specs.working.Bounds.{BoundsWithin, IsLeast};
ghost use Rattle.fir_meaning.specs.working.AssignedWidths.{assigned};
ghost use Rattle.fir_least_widths.specs.working.Rounds.{Round};

use crate::bound::Bound;
use crate::raise::raise;
use fir_base::MemoryOut;
use fir_bits::laws::monotone;
use std::alloc::Global;

/// The least widths in bits of so many unknowns that meet the bounds, where 129 stands for all that
/// is over 128 (FIRRTL spec, "Width Inference"). It is slow: it goes over all bounds as often as one
/// of them raises an unknown.
pub fn least_widths_by_rounds(
    alloc: Global,
    bounds: &[Bound],
    unknowns: usize,
) -> Result<Vec<u32>, MemoryOut>
    requires { BoundsWithin bounds.now unknowns }
    ensures long { IfOk result (λ w. length w.items ≡ unknowns) }
    ensures least { IfOk result (λ w. IsLeast bounds.now (assigned w.items)) }
{
    let mut widths = vec![in alloc; 0u32; unknowns]?;
    while raise_each(bounds, &mut widths) {}
    Ok(widths)
}

/// Looks at each bound once, and tells whether an unknown rose.
fn raise_each(bounds: &[Bound], widths: &mut [u32]) -> bool
    requires { BoundsWithin bounds.now (length widths.old) }
    ensures { Round bounds.now widths.old widths.new result (length bounds.now) }
{
    monotone();
    let mut rose = false;
    for bound in bounds {
        if raise(bound, widths) {
            rose = true;
        }
    }
    rose
}

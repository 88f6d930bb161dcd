//! One bound is looked at.

ghost use Rattle.std.specs.Prelude.{◌<◌, length};
ghost use Rattle.fir_least_widths.specs.working.Bounds.{TermWithin};
ghost use Rattle.fir_least_widths.specs.working.Raises.{Raises};

use crate::bound::{Bound, term_width};

/// Raises the unknown of a bound that is not met to the width of its term, and tells whether it did.
pub fn raise(bound: &Bound, widths: &mut [u32]) -> bool
    requires unknown { bound.now.unknown < length widths.old }
    requires term { TermWithin bound.now.term (length widths.old) }
    ensures { Raises bound.now widths.old widths.new result }
{
    let width = term_width(&bound.term, widths);
    if widths[bound.unknown] >= width {
        return false;
    }
    widths[bound.unknown] = width;
    true
}

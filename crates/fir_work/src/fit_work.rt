//! The form of a number at another width.

ghost use Rattle.std.specs.Prelude.{◌≡◌, ◌≤◌};
ghost use Rattle.fir_work.specs.working.Forms.{IsFitWork, plain};

use crate::work::Work;
use fir_bits::{NumTy, mask};

/// The form of a number of that type at that width: extended by its sign, or cut.
pub fn fit_work(ty: NumTy, width: u32) -> Work
    requires narrow { ty.width ≤ 128 }
    requires to_narrow { width ≤ 128 }
    ensures { IsFitWork ty width result }
{
    let all = mask(width);
    if ty.width > width {
        Work::Field { low: 0, mask: all }
    } else if is_plain(ty, width) {
        Work::Operand
    } else {
        Work::Extend {
            top: ty.width.saturating_sub(1),
            fill: all - mask(ty.width),
        }
    }
}

/// Whether a number of the type is itself at a width of at least its own.
pub fn is_plain(ty: NumTy, width: u32) -> bool
    ensures { result ≡ plain ty width }
{
    !ty.signed || ty.width == width
}

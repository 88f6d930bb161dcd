//! The form of an operation on one operand, where it has one.

ghost use Rattle.std.specs.Prelude.{◌≡◌, ◌-◌, ◌^◌, ◌≤◌, if◌then◌else◌, IfSome};
ghost use Rattle.fir_bits.specs.Forms.{no_type};
ghost use Rattle.fir_work.specs.declared.signed.SignedWork.TheVariants.{Negative};
ghost use Rattle.fir_work.specs.declared.work.Work.{Work as Given};
ghost use Rattle.fir_work.specs.working.Forms.{HasWidth, IsSingleWork};

use crate::fit_work::fit_work;
use crate::signed::SignedWork;
use crate::work::Work;
use fir_bits::{NumTy, PrimOp, mask};

/// The form of the operation on an operand of that type and these integers, of which those count that it has;
/// its result has that width.
pub fn single_work(op: PrimOp, a: NumTy, n: u128, m: u128, width: u32) -> Option<Work>
    requires { HasWidth op a no_type n m width }
    ensures { IfSome result (IsSingleWork op a n m width) }
{
    match op {
        PrimOp::Not => Some(Work::Turn(mask(a.width))),
        PrimOp::Andr => Some(Work::All(mask(a.width))),
        PrimOp::Orr => Some(Work::Any),
        PrimOp::Xorr => Some(Work::Parity),
        PrimOp::Bits => Some(Work::Field {
            low: m as u32,
            mask: mask(width),
        }),
        PrimOp::Head if a.width - width < 128 => Some(Work::Field {
            low: a.width - width,
            mask: mask(width),
        }),
        PrimOp::Tail => Some(Work::Field {
            low: 0,
            mask: mask(width),
        }),
        PrimOp::AsUInt | PrimOp::AsSInt | PrimOp::AsAsyncReset => Some(Work::Operand),
        PrimOp::Pad => Some(fit_work(a, width)),
        PrimOp::Cvt => Some(Work::Operand),
        PrimOp::Neg => Some(negative_form(a, width)),
        PrimOp::Shl if n < 128 => Some(Work::Shift(n as u32)),
        PrimOp::Shr if n < u128::from(a.width) => Some(Work::Field {
            low: n as u32,
            mask: mask(width),
        }),
        _ => None,
    }
}

/// The form of the negative of an operand, cut to that width.
fn negative_form(a: NumTy, width: u32) -> Work
    requires { width ≤ 128 }
    ensures { result ≡ Given.Signed Negative (if a.signed then a.width - 1 else 127) 0 (2 ^ width - 1) }
{
    Work::Signed {
        work: SignedWork::Negative,
        first: if a.signed {
            a.width.saturating_sub(1)
        } else {
            127
        },
        second: 0,
        mask: mask(width),
    }
}

//! The form of an operation on two operands, where it has one.

ghost use Rattle.std.specs.Prelude.{◌≡◌, ◌-◌, ◌^◌, ◌≤◌, IfSome, false, true};
ghost use Rattle.fir_work.specs.declared.work.Work.{Work as Given};
ghost use Rattle.fir_work.specs.working.Forms.{HasWidth, IsPairWork};

use crate::fit_work::is_plain;
use crate::signed::SignedWork;
use crate::work::Work;
use fir_bits::{NumTy, PrimOp, mask};

/// The form of the operation on operands of these types; its result has that width.
pub fn pair_work(op: PrimOp, a: NumTy, b: NumTy, width: u32) -> Option<Work>
    requires { HasWidth op a b 0 0 width }
    ensures { IfSome result (IsPairWork op a b width) }
{
    let plain = is_plain(a, width) && is_plain(b, width);
    let alike = a == b;
    match op {
        PrimOp::And if plain => Some(Work::And),
        PrimOp::Or if plain => Some(Work::Or),
        PrimOp::Xor if plain => Some(Work::Xor),
        PrimOp::Cat if b.width < 128 => Some(Work::Join(b.width)),
        PrimOp::Eq if alike => Some(Work::Same),
        PrimOp::Neq if alike => Some(Work::Differ),
        _ if a.signed && b.signed => signed_work(op, a, b, width),
        _ if a.signed || b.signed => None,
        _ => unsigned_work(op, a, b, width),
    }
}

/// The form of the operation on UInts.
fn unsigned_work(op: PrimOp, a: NumTy, b: NumTy, width: u32) -> Option<Work>
    requires has_width { HasWidth op a b 0 0 width }
    requires first { a.signed ≡ false }
    requires second { b.signed ≡ false }
    ensures { IfSome result (IsPairWork op a b width) }
{
    match op {
        PrimOp::Add => Some(Work::Sum),
        PrimOp::Sub => Some(Work::Difference(mask(width))),
        PrimOp::Mul => Some(Work::Product),
        PrimOp::Div => Some(Work::Quotient),
        PrimOp::Rem => Some(Work::Remainder),
        PrimOp::Lt => Some(Work::Below),
        PrimOp::Leq => Some(Work::AtMost),
        PrimOp::Gt => Some(Work::Above),
        PrimOp::Geq => Some(Work::AtLeast),
        PrimOp::Eq => Some(Work::Same),
        PrimOp::Neq => Some(Work::Differ),
        PrimOp::Dshl => Some(Work::Up),
        PrimOp::Dshr => Some(Work::Down),
        _ => None,
    }
}

/// The form of the operation on SInts.
fn signed_work(op: PrimOp, a: NumTy, b: NumTy, width: u32) -> Option<Work>
    requires has_width { HasWidth op a b 0 0 width }
    requires first { a.signed ≡ true }
    requires second { b.signed ≡ true }
    ensures { IfSome result (IsPairWork op a b width) }
{
    match op {
        PrimOp::Add => Some(signed_form(SignedWork::Sum, a, b, width)),
        PrimOp::Sub => Some(signed_form(SignedWork::Difference, a, b, width)),
        PrimOp::Mul => Some(signed_form(SignedWork::Product, a, b, width)),
        PrimOp::Lt => Some(signed_form(SignedWork::Below, a, b, width)),
        PrimOp::Leq => Some(signed_form(SignedWork::AtMost, a, b, width)),
        PrimOp::Gt => Some(signed_form(SignedWork::Above, a, b, width)),
        PrimOp::Geq => Some(signed_form(SignedWork::AtLeast, a, b, width)),
        _ => None,
    }
}

/// The form of that work on SInts of these widths, cut to that width.
fn signed_form(work: SignedWork, a: NumTy, b: NumTy, width: u32) -> Work
    requires { width ≤ 128 }
    ensures { result ≡ Given.Signed work (a.width - 1) (b.width - 1) (2 ^ width - 1) }
{
    Work::Signed {
        work,
        first: a.width.saturating_sub(1),
        second: b.width.saturating_sub(1),
        mask: mask(width),
    }
}

//! Rules of conversions, and of operators that keep a value.

ghost use Rattle.std.specs.Prelude.{IfSome};
ghost use Rattle.fir_bits.specs.declared.operators.PrimOp.TheVariants.{Andr, AsSInt, AsUInt, Cvt, Not, Orr, Pad, Shl, Xorr};
ghost use Rattle.fir_fold_rules.specs.working.Rules.{IntegerEquals, SingleEquals};

use crate::operand::Operand;
use crate::rules::first_of;
use crate::term::Term;
use fir_bits::{NumTy, PrimOp};

/// The rules of `pad`.
pub fn pad_rules(ty: NumTy, a: &Operand, n: u128) -> Option<Term>
    ensures { IfSome result (IntegerEquals Pad ty a.now n) }
{
    first_of!(pad_none(ty, a, n), pad_twice(ty, a, n),)
}

/// pad(x, n) = x, where x has n bits or more
fn pad_none(ty: NumTy, a: &Operand, n: u128) -> Option<Term>
    ensures { IfSome result (IntegerEquals Pad ty a.now n) }
{
    if n <= u128::from(a.ty.width) {
        Some(Term::Read(a.read))
    } else {
        None
    }
}

/// pad(pad(x, m), n) = pad(x, n)
fn pad_twice(ty: NumTy, a: &Operand, n: u128) -> Option<Term>
    ensures { IfSome result (IntegerEquals Pad ty a.now n) }
{
    let y = a.integer(PrimOp::Pad)?;
    Some(Term::Integer(PrimOp::Pad, *y, n))
}

/// The rules of `asUInt`.
pub fn unsigned_rules(ty: NumTy, a: &Operand) -> Option<Term>
    ensures { IfSome result (SingleEquals AsUInt ty a.now) }
{
    first_of!(unsigned_none(ty, a), unsigned_kept(ty, a),)
}

/// asUInt(x) = x, of a UInt
fn unsigned_none(ty: NumTy, a: &Operand) -> Option<Term>
    ensures { IfSome result (SingleEquals AsUInt ty a.now) }
{
    if a.is_unsigned() {
        Some(Term::Read(a.read))
    } else {
        None
    }
}

/// asUInt(asSInt(x)) = asUInt(x)
fn unsigned_kept(ty: NumTy, a: &Operand) -> Option<Term>
    ensures { IfSome result (SingleEquals AsUInt ty a.now) }
{
    let y = a.single(PrimOp::AsSInt)?;
    Some(Term::Single(PrimOp::AsUInt, *y))
}

/// The rules of `asSInt`.
pub fn signed_rules(ty: NumTy, a: &Operand) -> Option<Term>
    ensures { IfSome result (SingleEquals AsSInt ty a.now) }
{
    first_of!(signed_none(ty, a), signed_kept(ty, a),)
}

/// asSInt(x) = x, of an SInt
fn signed_none(ty: NumTy, a: &Operand) -> Option<Term>
    ensures { IfSome result (SingleEquals AsSInt ty a.now) }
{
    if a.is_signed() {
        Some(Term::Read(a.read))
    } else {
        None
    }
}

/// asSInt(asUInt(x)) = asSInt(x)
fn signed_kept(ty: NumTy, a: &Operand) -> Option<Term>
    ensures { IfSome result (SingleEquals AsSInt ty a.now) }
{
    let y = a.single(PrimOp::AsUInt)?;
    Some(Term::Single(PrimOp::AsSInt, *y))
}

/// cvt(x) = x, of an SInt
pub fn cvt_none(ty: NumTy, a: &Operand) -> Option<Term>
    ensures { IfSome result (SingleEquals Cvt ty a.now) }
{
    if a.is_signed() {
        Some(Term::Read(a.read))
    } else {
        None
    }
}

/// andr(x) = asUInt(x), of one bit
pub fn andr_bit(ty: NumTy, a: &Operand) -> Option<Term>
    ensures { IfSome result (SingleEquals Andr ty a.now) }
{
    if a.has_width(1) {
        Some(Term::Single(PrimOp::AsUInt, a.read))
    } else {
        None
    }
}

/// orr(x) = asUInt(x), of one bit
pub fn orr_bit(ty: NumTy, a: &Operand) -> Option<Term>
    ensures { IfSome result (SingleEquals Orr ty a.now) }
{
    if a.has_width(1) {
        Some(Term::Single(PrimOp::AsUInt, a.read))
    } else {
        None
    }
}

/// xorr(x) = asUInt(x), of one bit
pub fn xorr_bit(ty: NumTy, a: &Operand) -> Option<Term>
    ensures { IfSome result (SingleEquals Xorr ty a.now) }
{
    if a.has_width(1) {
        Some(Term::Single(PrimOp::AsUInt, a.read))
    } else {
        None
    }
}

/// not(not(x)) = asUInt(x)
pub fn not_twice(ty: NumTy, a: &Operand) -> Option<Term>
    ensures { IfSome result (SingleEquals Not ty a.now) }
{
    let y = a.single(PrimOp::Not)?;
    Some(Term::Single(PrimOp::AsUInt, *y))
}

/// shl(x, 0) = x
pub fn shl_none(ty: NumTy, a: &Operand, n: u128) -> Option<Term>
    ensures { IfSome result (IntegerEquals Shl ty a.now n) }
{
    if n == 0 {
        Some(Term::Read(a.read))
    } else {
        None
    }
}

//! Rules of `bits`, `head`, `tail` and `cat`.

ghost use Rattle.std.specs.Prelude.{◌≡◌, ◌+◌, ◌<◌, ◌≤◌, IfSome, true};
ghost use Rattle.fir_bits.specs.declared.operators.PrimOp.TheVariants.{Bits, Cat, Head, Shr, Tail};
ghost use Rattle.fir_fold_rules.specs.working.Rules.{IntegerEquals, PairEquals, RangeEquals};

use crate::operand::{Operand, is_same_read};
use crate::rules::first_of;
use crate::term::Term;
use fir_bits::{NumTy, PrimOp};

/// The rules of `bits`.
pub fn bits_rules(ty: NumTy, a: &Operand, n: u128, m: u128) -> Option<Term>
    ensures { IfSome result (RangeEquals Bits ty a.now n m) }
{
    first_of!(
        bits_whole(ty, a, n, m),
        bits_bits(ty, a, n, m),
        bits_low(ty, a, n, m),
        bits_high(ty, a, n, m),
        bits_pad(ty, a, n, m),
        bits_unsigned(ty, a, n, m),
        bits_signed(ty, a, n, m),
        bits_cvt(ty, a, n, m),
    )
}

/// bits(x, w - 1, 0) = asUInt(x)
fn bits_whole(ty: NumTy, a: &Operand, n: u128, m: u128) -> Option<Term>
    ensures { IfSome result (RangeEquals Bits ty a.now n m) }
{
    if is_whole(a.ty, n, m) {
        Some(Term::Single(PrimOp::AsUInt, a.read))
    } else {
        None
    }
}

/// bits(bits(x, h, l), n, m) = bits(x, n + l, m + l)
fn bits_bits(ty: NumTy, a: &Operand, n: u128, m: u128) -> Option<Term>
    ensures { IfSome result (RangeEquals Bits ty a.now n m) }
{
    let inner = a.field()?;
    let high = sum(n, inner.low)?;
    let low = sum(m, inner.low)?;
    Some(Term::Range(PrimOp::Bits, inner.read, high, low))
}

/// bits(cat(x, y), n, m) = bits(y, n, m), within y
fn bits_low(ty: NumTy, a: &Operand, n: u128, m: u128) -> Option<Term>
    ensures { IfSome result (RangeEquals Bits ty a.now n m) }
{
    let y = a.lower()?;
    if is_below(n, a.inner) {
        Some(Term::Range(PrimOp::Bits, *y, n, m))
    } else {
        None
    }
}

/// bits(cat(x, y), n, m) = bits(x, n - w, m - w), within x above the w bits of y
fn bits_high(ty: NumTy, a: &Operand, n: u128, m: u128) -> Option<Term>
    ensures { IfSome result (RangeEquals Bits ty a.now n m) }
{
    let x = a.upper()?;
    if is_above(m, a.inner) {
        let width = u128::from(a.inner.width);
        let high = n.saturating_sub(width);
        let low = m.saturating_sub(width);
        Some(Term::Range(PrimOp::Bits, *x, high, low))
    } else {
        None
    }
}

/// bits(pad(x, w), n, m) = bits(x, n, m), within x
fn bits_pad(ty: NumTy, a: &Operand, n: u128, m: u128) -> Option<Term>
    ensures { IfSome result (RangeEquals Bits ty a.now n m) }
{
    let x = a.integer(PrimOp::Pad)?;
    if is_below(n, a.inner) {
        Some(Term::Range(PrimOp::Bits, *x, n, m))
    } else {
        None
    }
}

/// bits(asUInt(x), n, m) = bits(x, n, m)
fn bits_unsigned(ty: NumTy, a: &Operand, n: u128, m: u128) -> Option<Term>
    ensures { IfSome result (RangeEquals Bits ty a.now n m) }
{
    let x = a.single(PrimOp::AsUInt)?;
    if is_below(n, a.inner) {
        Some(Term::Range(PrimOp::Bits, *x, n, m))
    } else {
        None
    }
}

/// bits(asSInt(x), n, m) = bits(x, n, m)
fn bits_signed(ty: NumTy, a: &Operand, n: u128, m: u128) -> Option<Term>
    ensures { IfSome result (RangeEquals Bits ty a.now n m) }
{
    let x = a.single(PrimOp::AsSInt)?;
    if is_below(n, a.inner) {
        Some(Term::Range(PrimOp::Bits, *x, n, m))
    } else {
        None
    }
}

/// bits(cvt(x), n, m) = bits(x, n, m), within x
fn bits_cvt(ty: NumTy, a: &Operand, n: u128, m: u128) -> Option<Term>
    ensures { IfSome result (RangeEquals Bits ty a.now n m) }
{
    let x = a.single(PrimOp::Cvt)?;
    if is_below(n, a.inner) {
        Some(Term::Range(PrimOp::Bits, *x, n, m))
    } else {
        None
    }
}

/// tail(x, n) = bits(x, w - n - 1, 0)
pub fn tail_bits(ty: NumTy, a: &Operand, n: u128) -> Option<Term>
    ensures { IfSome result (IntegerEquals Tail ty a.now n) }
{
    if is_below(n, a.ty) {
        let high = u128::from(a.ty.width) - n - 1;
        Some(Term::Range(PrimOp::Bits, a.read, high, 0))
    } else {
        None
    }
}

/// head(x, n) = bits(x, w - 1, w - n)
pub fn head_bits(ty: NumTy, a: &Operand, n: u128) -> Option<Term>
    ensures { IfSome result (IntegerEquals Head ty a.now n) }
{
    let width = u128::from(a.ty.width);
    if n >= 1 && n <= width {
        let (high, low) = (width - 1, width - n);
        Some(Term::Range(PrimOp::Bits, a.read, high, low))
    } else {
        None
    }
}

/// shr(x, n) = bits(x, w - 1, n), of a UInt of w bits
pub fn shr_bits(ty: NumTy, a: &Operand, n: u128) -> Option<Term>
    ensures { IfSome result (IntegerEquals Shr ty a.now n) }
{
    if a.is_unsigned() && is_below(n, a.ty) {
        let high = u128::from(a.ty.width) - 1;
        Some(Term::Range(PrimOp::Bits, a.read, high, n))
    } else {
        None
    }
}

/// The rules of `cat`.
pub fn cat_rules(ty: NumTy, a: &Operand, b: &Operand) -> Option<Term>
    ensures { IfSome result (PairEquals Cat ty a.now b.now) }
{
    first_of!(
        cat_first(ty, a, b),
        cat_second(ty, a, b),
        cat_joined(ty, a, b),
    )
}

/// cat(x, y) = asUInt(y), where x has no bits
fn cat_first(ty: NumTy, a: &Operand, b: &Operand) -> Option<Term>
    ensures { IfSome result (PairEquals Cat ty a.now b.now) }
{
    if a.has_width(0) {
        Some(Term::Single(PrimOp::AsUInt, b.read))
    } else {
        None
    }
}

/// cat(x, y) = asUInt(x), where y has no bits
fn cat_second(ty: NumTy, a: &Operand, b: &Operand) -> Option<Term>
    ensures { IfSome result (PairEquals Cat ty a.now b.now) }
{
    if b.has_width(0) {
        Some(Term::Single(PrimOp::AsUInt, a.read))
    } else {
        None
    }
}

/// cat(bits(x, h, m + 1), bits(x, m, l)) = bits(x, h, l)
fn cat_joined(ty: NumTy, a: &Operand, b: &Operand) -> Option<Term>
    ensures { IfSome result (PairEquals Cat ty a.now b.now) }
{
    let upper = a.field()?;
    let lower = b.field()?;
    if is_next(upper.low, lower.high) && is_same_read(&lower.read, &upper.read) {
        Some(Term::Range(PrimOp::Bits, upper.read, upper.high, lower.low))
    } else {
        None
    }
}

/// Whether the bits from `n` down to `m` are all that there are.
fn is_whole(ty: NumTy, n: u128, m: u128) -> bool
    ensures { result ≡ true → (m ≡ 0) × (n + 1 ≡ ty.width) }
{
    m == 0 && n < 128 && n + 1 == u128::from(ty.width)
}

/// Whether there is such a bit.
fn is_below(n: u128, ty: NumTy) -> bool
    ensures { result ≡ true → n < ty.width }
{
    n < u128::from(ty.width)
}

/// Whether there is no such bit.
fn is_above(n: u128, ty: NumTy) -> bool
    ensures { result ≡ true → ty.width ≤ n }
{
    n >= u128::from(ty.width)
}

/// Whether the first number comes behind the second.
fn is_next(next: u128, last: u128) -> bool
    ensures { result ≡ true → next ≡ last + 1 }
{
    next > last && next - last == 1
}

fn sum(a: u128, b: u128) -> Option<u128>
    ensures { IfSome result (λ s. s ≡ a + b) }
{
    a.checked_add(b)
}

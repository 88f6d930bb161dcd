//! The value of an operation's result.

ghost use Rattle.std.specs.Prelude.{◌≡◌, ◌+◌, ◌-◌, ◌*◌, ◌/◌, ◌%◌, ◌^◌, ◌<◌, ◌≤◌, IsTrue, IsOk, map, unsigned_abs, count_ones};
ghost use Rattle.fir_bits.specs.Values.{complement};
ghost use Rattle.fir_bits.specs.Widths.{width_of};
ghost use Rattle.fir_bits.specs.Types.{is_legal};
ghost use Rattle.fir_bits.specs.working.Types.{typed, typed_at};
ghost use Rattle.fir_bits.specs.working.Operators.{type_of};
ghost use Rattle.fir_bits.specs.Operators.{integer_of, widened, operation_value, applied_at, applied};

use crate::bits::{Bits, mask};
use crate::operators::{PrimOp, operators};
use crate::types::{NumTy, entry, width};
use crate::whole::{Whole, shifted_right};

/// An operand: a value and its kind, SInt or UInt.
#[derive(Clone, Copy, PartialEq, Eq)]
pub struct Num {
    pub signed: bool,
    pub value: Bits,
}

impl Num {
    /// The operand's type.
    pub fn ty(&self) -> NumTy
        ensures { result ≡ type_of self.now }
    {
        NumTy {
            signed: self.signed,
            width: self.value.width(),
        }
    }
}

macro_rules! values {
    ($op:expr; $($name:ident: $word:literal, $form:ident, $signed:expr, $width:expr, $value:expr;)*) => {
        match $op { $(PrimOp::$name => $value,)* }
    };
}

/// The integer that the operand stands for.
fn integer(a: &Num) -> Whole
    ensures value { result ≡ integer_of a.now }
    ensures size { unsigned_abs result < 2 ^ a.now.value.width }
{
    a.value.integer(a.signed)
}

/// The operand's bits at a width from its own on.
fn widened(a: &Num, to: u32) -> u128
    requires wider { a.now.value.width ≤ to }
    requires narrow { to ≤ 128 }
    ensures { result ≡ widened a.now to }
{
    a.value.extend(a.signed, to).bits()
}

/// Each of the operand's bits turned.
fn complement(a: &Num) -> u128
    ensures { result ≡ complement a.now.value.width a.now.value.number }
{
    mask(a.value.width()) - a.value.bits()
}

/// Whether the number of the operand's bits that are 1 is odd, as one bit.
fn parity(a: &Num) -> u128
    ensures { result ≡ count_ones a.now.value.number % 2 }
{
    u128::from(a.value.bits().count_ones() % 2)
}

/// The bits of the two operands side by side, the first one's above.
fn joined(a: &Num, b: &Num) -> u128
    requires { a.now.value.width + b.now.value.width ≤ 128 }
    ensures { result ≡ a.now.value.number * 2 ^ b.now.value.width + b.now.value.number }
{
    let (high, low) = (a.value.bits(), b.value.bits());
    let by = b.value.width();
    if by == 128 { low } else { (high << by) | low }
}

/// The operand's bits from bit `lo` on, as many as `count`.
fn field(a: &Num, lo: u128, count: u32) -> u128
    requires { count ≤ 128 }
    ensures { result ≡ a.now.value.number / 2 ^ lo % 2 ^ count }
{
    shifted_right(a.value.bits(), lo) & mask(count)
}

/// The operand's high bits, as many as `count`.
fn high_bits(a: &Num, count: u128) -> u128
    requires { count ≤ a.now.value.width }
    ensures { result ≡ a.now.value.number / 2 ^ (a.now.value.width - count) }
{
    shifted_right(a.value.bits(), u128::from(a.value.width()) - count)
}

/// The number of the result of width `r`.
fn value(op: PrimOp, r: u32, a: &Num, b: &Num, n: u128, m: u128) -> u128
    requires width { r ≡ width_of op a.now.signed a.now.value.width b.now.value.width n m }
    requires narrow { r ≤ 128 }
    requires legal { IsTrue (is_legal op a.now.value.width n m) }
    ensures { result ≡ operation_value op r a.now b.now n m }
{
    operators!(values, op, signed, w, v, n, m, r, a, b)
}

/// The value of the result on two operands and two integers, of which the operation reads those
/// that it has.
fn apply_at(op: PrimOp, a: &Num, b: &Num, n: u128, m: u128) -> Bits
    requires { IsOk (typed_at op (type_of a.now) (type_of b.now) n m) }
    ensures { result ≡ applied_at op a.now b.now n m }
{
    let (w, v) = (a.value.width(), b.value.width());
    let r = width(op, a.signed, w, v, n, m);
    Bits::of(r, value(op, r, a, b, n, m))
}

/// The value of the operation's result on these operands and integers, where it has a type
/// (`result_type`).
///
/// Division by zero, quotient and remainder, is 0 (FIRRTL spec, "Primitive Operations").
pub fn apply(op: PrimOp, args: &[Num], consts: &[u128]) -> Bits
    requires { IsOk (typed op (map type_of args.now) consts.now) }
    ensures { result ≡ applied op args.now consts.now }
{
    let none = Num {
        signed: false,
        value: Bits::EMPTY,
    };
    let (a, b) = (entry(args, 0, &none), entry(args, 1, &none));
    let (n, m) = (*entry(consts, 0, &0), *entry(consts, 1, &0));
    apply_at(op, a, b, n, m)
}

//! Numbers that are read as two's complement (IEEE 1364-2005, 5.1.5, 5.1.12, 5.5), by sign and magnitude.

ghost use Rattle.std.specs.Prelude.{◌≡◌, ◌≢◌, ◌/◌, ◌≤◌, true, int_div, int_rem, int_lt, int_le};
ghost use Rattle.fir_bits.specs.Integers.{of_sign, reading, bits_of, shifted_down};
ghost use Rattle.ver_ast.specs.SideValues.{fits_signed, signed_value, signed_quotient};

use crate::numbers::shifted_down;
use fir_bits::mask;
use ver_ast::SignedOp;

/// An integer. A negative 0 is 0.
#[derive(Clone, Copy)]
struct Integer {
    negative: bool,
    magnitude: u128,
}

/// The integer that the bits of a number stand for.
fn read_signed(number: u128, width: u32) -> Integer
    requires { width ≤ 128 }
    ensures { of_sign result.negative result.magnitude ≡ reading true width number }
{
    let greatest = mask(width);
    if number > greatest {
        let above = number - greatest - 1;
        Integer {
            negative: false,
            magnitude: above,
        }
    } else if number > greatest - number {
        Integer {
            negative: true,
            magnitude: greatest - number + 1,
        }
    } else {
        Integer {
            negative: false,
            magnitude: number,
        }
    }
}

/// The bits of an integer.
fn bits(x: Integer, width: u32) -> u128
    requires { width ≤ 128 }
    ensures { result ≡ bits_of width (of_sign x.negative x.magnitude) }
{
    let greatest = mask(width);
    if x.negative && x.magnitude > 0 {
        greatest - ((x.magnitude - 1) & greatest)
    } else {
        x.magnitude & greatest
    }
}

/// Whether an integer is at most the other.
fn is_at_most(x: Integer, y: Integer) -> bool
    ensures { result ≡ int_le (of_sign x.negative x.magnitude) (of_sign y.negative y.magnitude) }
{
    match (x.negative, y.negative) {
        (false, false) => x.magnitude <= y.magnitude,
        (false, true) => x.magnitude == 0 && y.magnitude == 0,
        (true, false) => true,
        (true, true) => y.magnitude <= x.magnitude,
    }
}

/// Whether an integer is below the other.
fn is_below(x: Integer, y: Integer) -> bool
    ensures { result ≡ int_lt (of_sign x.negative x.magnitude) (of_sign y.negative y.magnitude) }
{
    !is_at_most(y, x)
}

/// The quotient towards zero.
fn quotient(x: Integer, y: Integer) -> Integer
    requires { y.magnitude ≢ 0 }
    ensures { of_sign result.negative result.magnitude ≡ int_div (of_sign x.negative x.magnitude) (of_sign y.negative y.magnitude) }
{
    Integer {
        negative: x.negative != y.negative,
        magnitude: x.magnitude / y.magnitude,
    }
}

/// The remainder, with the sign of the first.
fn remainder(x: Integer, y: Integer) -> Integer
    requires { y.magnitude ≢ 0 }
    ensures { of_sign result.negative result.magnitude ≡ int_rem (of_sign x.negative x.magnitude) (of_sign y.negative y.magnitude) }
{
    Integer {
        negative: x.negative,
        magnitude: x.magnitude % y.magnitude,
    }
}

/// Whether the bits of a width hold an integer.
fn fits(x: Integer, width: u32) -> bool
    requires { width ≤ 128 }
    ensures { result ≡ fits_signed width (of_sign x.negative x.magnitude) }
{
    let half = if width == 0 { 1 } else { mask(width - 1) + 1 };
    if x.negative {
        x.magnitude <= half
    } else {
        x.magnitude < half
    }
}

/// An integer divided by a power of two, rounded down.
fn lowered(x: Integer, by: u128) -> Integer
    ensures { of_sign result.negative result.magnitude ≡ shifted_down (of_sign x.negative x.magnitude) by }
{
    if x.negative && x.magnitude > 0 {
        Integer {
            negative: true,
            magnitude: shifted_down(x.magnitude - 1, by) + 1,
        }
    } else {
        Integer {
            negative: false,
            magnitude: shifted_down(x.magnitude, by),
        }
    }
}

/// The bits of a quotient, where they hold it.
fn quotient_bits(x: Integer, width: u32) -> Option<u128>
    requires { width ≤ 128 }
    ensures { result ≡ signed_quotient width (of_sign x.negative x.magnitude) }
{
    if fits(x, width) {
        Some(bits(x, width))
    } else {
        None
    }
}

/// What an operator gives of two numbers of that width, where it gives something.
fn operated(op: SignedOp, width: u32, x: Integer, y: Integer) -> Option<u128>
    requires { width ≤ 128 }
    ensures { result ≡ signed_value op width (of_sign x.negative x.magnitude) (of_sign y.negative y.magnitude) }
{
    match op {
        SignedOp::Div if y.magnitude == 0 => None,
        SignedOp::Rem if y.magnitude == 0 => None,
        SignedOp::Div => quotient_bits(quotient(x, y), width),
        SignedOp::Rem => Some(bits(remainder(x, y), width)),
        SignedOp::Lt => Some(u128::from(is_below(x, y))),
        SignedOp::Leq => Some(u128::from(is_at_most(x, y))),
        SignedOp::Gt => Some(u128::from(is_below(y, x))),
        SignedOp::Geq => Some(u128::from(is_at_most(y, x))),
    }
}

/// What an operator gives of two numbers of that width that are read as signed, where it gives something.
#[inline(never)]
pub fn signed(op: SignedOp, width: u32, first: u128, second: u128) -> Option<u128>
    requires { width ≤ 128 }
    ensures { result ≡ signed_value op width (reading true width first) (reading true width second) }
{
    operated(
        op,
        width,
        read_signed(first, width),
        read_signed(second, width),
    )
}

/// A number that is read as signed and shifted down, filled with its sign, at a width.
#[inline(never)]
pub fn signed_shift(from: u32, to: u32, number: u128, by: u128) -> u128
    requires narrow { from ≤ 128 }
    requires to_narrow { to ≤ 128 }
    ensures { result ≡ bits_of to (shifted_down (reading true from number) by) }
{
    bits(lowered(read_signed(number, from), by), to)
}

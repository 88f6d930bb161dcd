//! The numbers of tokens, from the bytes that spell them (IEEE 1364-2005, 3.5.1).

ghost use Rattle.std.specs.Prelude.{◌≡◌, ◌+◌, ◌*◌, ◌^◌, ◌<◌, ◌≤◌, SomeIff, length};
ghost use Rattle.fir_base.specs.Digits.{digit_value, decimal_value};
ghost use Rattle.ver_ast.specs.Spells.{counted};
ghost use Rattle.ver_lex.specs.working.Lexemes.{IsCountedConstant};
ghost use Rattle.ver_lex.specs.working.Fronts.{digits_length};
ghost use Rattle.ver_lex.specs.working.View.{digit_or_zero, number_in, width_of, value_of};

use crate::byte::radix_of;
use crate::number::digits_length;
use fir_base::{decimal_value, digit_value};
use ver_ast::Constant;

/// The largest number that a tree counts.
const MOST: u32 = 4294967294;

/// The number that decimal digits spell, as far as a tree counts it.
pub fn counted(digits: &[u8]) -> u32
    ensures { result ≡ counted (decimal_value digits.now) }
{
    match decimal_value(digits) {
        Some(number) if number < u128::from(MOST) => number as u32,
        _ => MOST,
    }
}

fn digit_or_zero(byte: u8) -> u8
    ensures { result ≡ digit_or_zero (digit_value byte) }
{
    digit_value(byte).unwrap_or(0)
}

/// The number with one more digit, unless it is out of range.
fn next_number(radix: u8, number: u128, byte: u8) -> Option<u128>
    ensures { SomeIff result (radix * number + digit_or_zero (digit_value byte) < 2 ^ 128) (radix * number + digit_or_zero (digit_value byte)) }
{
    let shifted = u128::from(radix).checked_mul(number)?;
    shifted.checked_add(u128::from(digit_or_zero(byte)))
}

/// The number of digits with a radix, unless it is 2^128 or more.
fn number_in(radix: u8, digits: &[u8]) -> Option<u128>
    requires { 1 ≤ radix }
    ensures { SomeIff result (number_in radix digits.now < 2 ^ 128) (number_in radix digits.now) }
{
    let mut number = 0;
    for digit in digits {
        number = next_number(radix, number, *digit)?;
    }
    Some(number)
}

/// The constant that is spelled so.
pub fn constant(spelling: &[u8]) -> Constant
    requires { digits_length spelling.now + 2 ≤ length spelling.now }
    ensures { IsCountedConstant result (width_of spelling.now) (value_of spelling.now) }
{
    let (size, behind) = spelling.split_at(digits_length(spelling));
    let (base, digits) = behind.split_at(2);
    Constant {
        width: counted(size),
        number: number_in(radix_of(base[1]), digits),
    }
}

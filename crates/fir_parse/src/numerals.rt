//! The numerals of literals (FIRRTL spec, "Literals").

ghost use Rattle.std.specs.Prelude.{◌≡◌, Some};
ghost use Rattle.fir_parse.specs.Numbers.{numeral, integer_value, text_value, behind_sign, signed_digits};
ghost use Rattle.fir_parse.specs.working.Ranges.{numeral_of, numeral_within};

use crate::integer::Integer;
use crate::radix::{digits_value, radix_of};

/// Whether a number is below zero, and how far from zero.
#[derive(Clone, Copy)]
pub struct Numeral {
    pub negative: bool,
    pub magnitude: u128,
}

/// What an integer of the text spells.
pub fn integer_numeral(integer: Integer) -> Numeral
    ensures { numeral_of (Some result) ≡ Some (integer_value integer.entry.spelling.now) }
{
    Numeral {
        negative: integer.has_minus(),
        magnitude: integer.number,
    }
}

/// What the string of a literal spells: a letter, a sign before or behind it or none, and digits. It spells
/// nothing in another form, or at 2^128 or more in size.
pub fn text_numeral(text: &[u8]) -> Option<Numeral>
    ensures { numeral_of result ≡ numeral_within (text_value text.now) }
{
    match text {
        [b'-', rest @ ..] => behind_sign(true, rest),
        [b'+', rest @ ..] => behind_sign(false, rest),
        [letter, rest @ ..] => signed_digits(radix_of(*letter)?, rest),
        [] => None,
    }
}

/// Behind a sign a letter and digits.
fn behind_sign(negative: bool, text: &[u8]) -> Option<Numeral>
    ensures { numeral_of result ≡ numeral_within (behind_sign negative text.now) }
{
    match text {
        [letter, digits @ ..] => with_sign(negative, digits_value(radix_of(*letter)?, digits)),
        [] => None,
    }
}

/// A sign or none, then digits.
fn signed_digits(radix: u128, text: &[u8]) -> Option<Numeral>
    ensures { numeral_of result ≡ numeral_within (signed_digits radix text.now) }
{
    match text {
        [b'-', digits @ ..] => with_sign(true, digits_value(radix, digits)),
        [b'+', digits @ ..] => with_sign(false, digits_value(radix, digits)),
        _ => with_sign(false, digits_value(radix, text)),
    }
}

/// The number with its sign.
fn with_sign(negative: bool, magnitude: Option<u128>) -> Option<Numeral>
    ensures { numeral_of result ≡ numeral negative magnitude }
{
    Some(Numeral {
        negative,
        magnitude: magnitude?,
    })
}

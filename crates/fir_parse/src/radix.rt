//! The numbers of digits in a radix (FIRRTL spec, "Literals").

ghost use Rattle.std.specs.Prelude.{◌≡◌};
ghost use Rattle.fir_base.specs.Digits.{digit_value};
ghost use Rattle.fir_parse.specs.Numbers.{radix_of, next_value, digits_value};
ghost use Rattle.fir_parse.specs.working.Ranges.{number_within};

use fir_base::digit_value;

/// The radix of the letter `b`, `o` or `h`.
pub fn radix_of(letter: u8) -> Option<u128>
    ensures { result ≡ radix_of letter }
{
    match letter {
        b'b' => Some(2),
        b'o' => Some(8),
        b'h' => Some(16),
        _ => None,
    }
}

/// The number with one more digit of the radix, unless it is out of range.
fn next_value(radix: u128, number: u128, byte: u8) -> Option<u128>
    ensures { result ≡ number_within (next_value radix number (digit_value byte)) }
{
    let digit = u128::from(digit_value(byte)?);
    if digit >= radix {
        return None;
    }
    number.checked_mul(radix)?.checked_add(digit)
}

/// The number that one digit of the radix or more spell, unless it is 2^128 or more.
pub fn digits_value(radix: u128, digits: &[u8]) -> Option<u128>
    ensures { result ≡ number_within (digits_value radix digits.now) }
{
    if digits.is_empty() {
        return None;
    }
    let mut number = 0;
    for digit in digits {
        number = next_value(radix, number, *digit)?;
    }
    Some(number)
}

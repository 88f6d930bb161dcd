//! Numbers in decimal, as both languages, traces and the fault lines write them.

ghost use Rattle.std.specs.Prelude.{◌≡◌, ◌++◌, ◌+◌, ◌-◌, ◌*◌, ◌^◌, ◌<◌, OnOk, SomeIff, decimal};
ghost use Rattle.fir_base.specs.Digits.{decimal_value};

use crate::refused::MemoryOut;
use itoa::Buffer;

/// Appends the number in decimal digits, without leading zeros.
pub fn put_decimal(out: &mut Vec<u8>, n: u128) -> Result<(), MemoryOut>
    ensures { OnOk result (out.new.items ≡ out.old.items ++ decimal n) }
{
    let mut buffer = Buffer::new();
    out.extend_from_slice(buffer.format(n).as_bytes())?;
    Ok(())
}

/// The number with one more digit, unless it is out of range.
fn next_value(number: u128, digit: u8) -> Option<u128>
    ensures { SomeIff result (10 * number + (digit - 48) < 2 ^ 128) (10 * number + (digit - 48)) }
{
    let tens = number.checked_mul(10)?;
    tens.checked_add(u128::from(digit.saturating_sub(b'0')))
}

/// The number that decimal digits spell, unless it is 2^128 or more.
pub fn decimal_value(digits: &[u8]) -> Option<u128>
    ensures { SomeIff result (decimal_value digits.now < 2 ^ 128) (decimal_value digits.now) }
{
    let mut number = 0;
    for digit in digits {
        number = next_value(number, *digit)?;
    }
    Some(number)
}

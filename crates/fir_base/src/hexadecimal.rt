//! Numbers in hexadecimal.

ghost use Rattle.std.specs.Prelude.{◌≡◌, ◌<◌, ◌/◌, ◌%◌, [], ◌∷◌, ◌++◌, OnOk, false};
ghost use Rattle.std.specs.Fmt.{digit_glyph};
ghost use Rattle.fir_base.specs.Digits.{digit_value, hexadecimal};

use crate::refused::MemoryOut;

/// Appends the number in digits, whose letters are in lower case, without leading zeros.
#[tactic(auto, using(crate::proofs::Digits::hexadecimal_one, crate::proofs::Digits::hexadecimal_behind))]
pub fn put_hexadecimal(out: &mut Vec<u8>, n: u128) -> Result<(), MemoryOut>
    ensures { OnOk result (out.new.items ≡ out.old.items ++ hexadecimal n) }
{
    if n < 16 {
        out.push(hex_digit(n as u8))?;
        return Ok(());
    }
    put_hexadecimal(out, n / 16)?;
    out.push(hex_digit((n % 16) as u8))?;
    Ok(())
}

/// Appends the byte as two digits, whose letters are in lower case.
pub fn put_hex_byte(out: &mut Vec<u8>, byte: u8) -> Result<(), MemoryOut>
    ensures { OnOk result (out.new.items ≡ out.old.items ++ digit_glyph false (byte / 16) ∷ digit_glyph false (byte % 16) ∷ []) }
{
    out.push(hex_digit(byte / 16))?;
    out.push(hex_digit(byte % 16))?;
    Ok(())
}

/// The digit of a number below 16, whose letters are in lower case.
pub fn hex_digit(digit: u8) -> u8
    requires { digit < 16 }
    ensures { result ≡ digit_glyph false digit }
{
    if digit < 10 {
        b'0' + digit
    } else {
        b'a' - 10 + digit
    }
}

/// The number of a digit of up to sixteen, whose letters are in either case.
pub fn digit_value(byte: u8) -> Option<u8>
    ensures { result ≡ digit_value byte }
{
    match byte {
        b'0'..=b'9' => Some(byte - b'0'),
        b'a'..=b'f' => Some(byte - b'a' + 10),
        b'A'..=b'F' => Some(byte - b'A' + 10),
        _ => None,
    }
}

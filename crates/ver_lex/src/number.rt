//! Numbers, and the constants that begin with one (IEEE 1364-2005, 3.5.1).

ghost use Rattle.std.specs.Prelude.{◌≡◌, ◌≤◌, length};
ghost use Rattle.ver_lex.specs.working.Bytes.{is_digit_below};
ghost use Rattle.ver_lex.specs.working.Fronts.{digits_length, digits_below, based_length, number_front};

use crate::byte::{is_base, radix_of, starts_with_byte};
use crate::kind::Kind;
use crate::piece::Piece;
use fir_base::{digit_value, is_digit};

/// How many decimal digits stand at the front.
pub fn digits_length(bytes: &[u8]) -> usize
    ensures value { result ≡ digits_length bytes.now }
    ensures within { result ≤ length bytes.now }
{
    bytes.iter().take_while(|byte| is_digit(**byte)).count()
}

fn is_digit_below(radix: u8, byte: u8) -> bool
    ensures { result ≡ is_digit_below radix byte }
{
    match digit_value(byte) {
        Some(digit) => digit < radix,
        None => false,
    }
}

/// How many digits below the radix stand at the front.
fn digits_below(radix: u8, bytes: &[u8]) -> usize
    ensures value { result ≡ digits_below radix bytes.now }
    ensures within { result ≤ length bytes.now }
{
    bytes
        .iter()
        .take_while(|byte| is_digit_below(radix, **byte))
        .count()
}

/// How many bytes a quote, a base and its digits have at the front, or 0 where these do not stand there.
fn based_length(bytes: &[u8]) -> usize
    ensures value { result ≡ based_length bytes.now }
    ensures within { result ≤ length bytes.now }
{
    match bytes {
        [quote, letter, digits @ ..] if *quote == b'\'' && is_base(*letter) => {
            let count = digits_below(radix_of(*letter), digits);
            if count == 0 { 0 } else { count + 2 }
        }
        _ => 0,
    }
}

/// The number or the constant at the front, where a digit stands.
pub fn read_number(bytes: &[u8]) -> Piece
    ensures { result ≡ number_front bytes.now }
{
    let count = digits_length(bytes);
    let (_, behind) = bytes.split_at(count);
    let based = based_length(behind);
    if based == 0 {
        let kind = if count == 1 && starts_with_byte(b'0', bytes) {
            Kind::Zero
        } else {
            Kind::Number
        };
        return Piece::Token(kind, count);
    }
    let (_, rest) = behind.split_at(based);
    if starts_with_byte(b'?', rest) {
        Piece::Questioned(count + based)
    } else {
        Piece::Token(Kind::Constant, count + based)
    }
}

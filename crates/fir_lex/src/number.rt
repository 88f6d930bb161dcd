//! Integers (FIRRTL spec, "Details about Syntax").

ghost use Rattle.std.specs.Prelude.{◌≡◌, ◌≤◌, IsTrue, length, take, drop, take_while};
ghost use Rattle.fir_base.specs.Bytes.{is_digit};
ghost use Rattle.fir_base.specs.working.Bytes.{starts_with_digit};
ghost use Rattle.fir_lex.specs.working.Front.{integer_front};
ghost use Rattle.fir_lex.specs.working.Numbers.{digits_of};
ghost use Rattle.fir_lex.specs.working.View.{front_of, IsWithinBytes};

use crate::piece::{Found, Piece};
use crate::token::Kind;
use fir_base::{decimal_value, is_digit};

fn digits_length(bytes: &[u8]) -> usize
    ensures { result ≡ length (take_while is_digit bytes.now) }
{
    bytes.iter().take_while(|byte| is_digit(**byte)).count()
}

/// The integer at the front, whose digits stand behind `sign` bytes.
pub fn read_integer(bytes: &[u8], sign: usize) -> Piece
    requires within { sign ≤ length bytes.now }
    requires sign { digits_of bytes.now ≡ drop sign bytes.now }
    requires digit { IsTrue (starts_with_digit (drop sign bytes.now)) }
    ensures front { front_of bytes.now result ≡ integer_front (take sign bytes.now) (drop sign bytes.now) }
    ensures within { IsWithinBytes bytes.now result }
{
    let (_, digits_on) = bytes.split_at(sign);
    let count = digits_length(digits_on);
    let (digits, _) = digits_on.split_at(count);
    match decimal_value(digits) {
        Some(number) => Piece::Found(Found::whole(Kind::Integer(number), sign + count)),
        None => Piece::BadLiteral,
    }
}

//! Signs.

ghost use Rattle.std.specs.Prelude.{◌≡◌, ◌≤◌, length, drop, slice_index};
ghost use Rattle.fir_lex.specs.working.Front.{is_single, sign_at};
ghost use Rattle.fir_lex.specs.working.View.{front_of, IsWithinBytes};

use crate::byte::starts_with_byte;
use crate::piece::{Found, Piece};
use crate::token::Kind;

/// Whether the byte is a sign by itself, whatever follows.
fn is_single(byte: u8) -> bool
    ensures { result ≡ is_single byte }
{
    matches!(
        byte,
        b'>' | b'(' | b')' | b'[' | b']' | b'{' | b'}' | b',' | b':' | b'.'
    )
}

/// The longest sign at the front, or a byte in no token.
pub fn read_sign(bytes: &[u8]) -> Piece
    requires { 1 ≤ length bytes.now }
    ensures front { front_of bytes.now result ≡ sign_at (slice_index bytes.now 0) (drop 1 bytes.now) }
    ensures within { IsWithinBytes bytes.now result }
{
    let first = bytes[0];
    let (_, behind) = bytes.split_at(1);
    if first == b'<' && (starts_with_byte(b'=', behind) || starts_with_byte(b'-', behind)) {
        Piece::Found(Found::whole(Kind::Sign, 2))
    } else if first == b'=' && starts_with_byte(b'>', behind) {
        Piece::Found(Found::whole(Kind::Sign, 2))
    } else if first == b'<' || first == b'=' || is_single(first) {
        Piece::Found(Found::whole(Kind::Sign, 1))
    } else {
        Piece::BadByte(0, first)
    }
}

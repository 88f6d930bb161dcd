//! Strings on one line (FIRRTL spec, "Details about Syntax").

ghost use Rattle.std.specs.Prelude.{◌≡◌, ◌+◌, ◌<◌, ◌≤◌, IfSome, Some, false, length, drop, position, nat_le};
ghost use Rattle.fir_lex.specs.working.Front.{string_length, string_front};
ghost use Rattle.fir_lex.specs.working.View.{front_of, IsWithinBytes};

use crate::byte::ends_line;
use crate::piece::{Found, Piece};
use crate::token::Kind;

/// How many bytes stand before the quote that closes the string on its line.
fn string_length(bytes: &[u8]) -> Option<usize>
    ensures value { result ≡ string_length false bytes.now }
    ensures within { IfSome result (λ n. n < length bytes.now) }
{
    let mut escaped = false;
    for (i, byte) in bytes.iter().enumerate() {
        let (_, rest) = bytes.split_at(i);
        if ends_line(rest) {
            return None;
        }
        if !escaped && *byte == b'"' {
            return Some(i);
        }
        escaped = !escaped && *byte == b'\\';
    }
    None
}

/// Where the first byte past ASCII stands.
fn non_ascii_position(bytes: &[u8]) -> Option<usize>
    ensures value { result ≡ position (λ b. nat_le 128 b) bytes.now }
    ensures within { IfSome result (λ k. k < length bytes.now) }
{
    bytes.iter().position(|byte| 128 <= *byte)
}

/// The string whose opening quote is the first byte, with `count` bytes before the closing one.
fn closed_string(bytes: &[u8], count: usize) -> Piece
    requires { count + 2 ≤ length bytes.now }
    ensures front { front_of bytes.now result ≡ string_front (drop 1 bytes.now) (Some count) }
    ensures within { IsWithinBytes bytes.now result }
{
    let (_, behind) = bytes.split_at(1);
    let (content, _) = behind.split_at(count);
    match non_ascii_position(content) {
        Some(k) => Piece::BadByte(k + 1, content[k]),
        None => Piece::Found(Found {
            kind: Kind::Text,
            from: 1,
            upto: count + 1,
            length: count + 2,
        }),
    }
}

/// The string whose opening quote is the first byte.
pub fn read_string(bytes: &[u8]) -> Piece
    requires { 1 ≤ length bytes.now }
    ensures front { front_of bytes.now result ≡ string_front (drop 1 bytes.now) (string_length false (drop 1 bytes.now)) }
    ensures within { IsWithinBytes bytes.now result }
{
    let (_, behind) = bytes.split_at(1);
    match string_length(behind) {
        None => Piece::BadLiteral,
        Some(count) => closed_string(bytes, count),
    }
}

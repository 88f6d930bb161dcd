//! Comments and file information (FIRRTL spec, "Details about Syntax").

ghost use Rattle.std.specs.Prelude.{◌≡◌, ◌<◌, ◌≤◌, IfSome, false, length, drop};
ghost use Rattle.fir_lex.specs.working.Front.{comment_length, information_length, information_front};
ghost use Rattle.fir_lex.specs.working.View.{front_of, IsWithinBytes};

use crate::byte::ends_line;
use crate::piece::Piece;

/// How many bytes stand before the line's end, or the text's.
pub fn comment_length(bytes: &[u8]) -> usize
    ensures value { result ≡ comment_length bytes.now }
    ensures within { result ≤ length bytes.now }
{
    for i in 0..bytes.len() {
        let (_, rest) = bytes.split_at(i);
        if ends_line(rest) {
            return i;
        }
    }
    bytes.len()
}

/// How many bytes stand before the bracket that closes file information on its line.
fn information_length(bytes: &[u8]) -> Option<usize>
    ensures value { result ≡ information_length false bytes.now }
    ensures within { IfSome result (λ n. n < length bytes.now) }
{
    let mut backslash = false;
    for (i, byte) in bytes.iter().enumerate() {
        let (_, rest) = bytes.split_at(i);
        if ends_line(rest) {
            return None;
        }
        if !backslash && *byte == b']' {
            return Some(i);
        }
        backslash = *byte == b'\\';
    }
    None
}

/// The file information whose `@[` stands at the front.
pub fn read_information(bytes: &[u8]) -> Piece
    requires { 2 ≤ length bytes.now }
    ensures front { front_of bytes.now result ≡ information_front (information_length false (drop 2 bytes.now)) }
    ensures within { IsWithinBytes bytes.now result }
{
    let (_, content) = bytes.split_at(2);
    match information_length(content) {
        None => Piece::BadByte(0, b'@'),
        Some(count) => Piece::Passed(count + 3),
    }
}

//! Indentation, and lines that count for nothing.

ghost use Rattle.std.specs.Prelude.{◌≡◌, ◌+◌, ◌<◌, ◌≤◌, IfSome, length, take_while, position, nat_eq};
ghost use Rattle.fir_lex.specs.working.Bytes.{is_blank};
ghost use Rattle.fir_lex.specs.working.Lexed.{is_idle, idle_length, unmet};

use crate::byte::{ends_line, is_blank, line_end_length};
use crate::front::read_front;
use crate::information::comment_length;
use crate::piece::Piece;
use fir_ast::{FirFault, Place};

/// How many spaces and tabs stand at the front.
pub fn blank_length(bytes: &[u8]) -> usize
    ensures value { result ≡ length (take_while is_blank bytes.now) }
    ensures within { result ≤ length bytes.now }
{
    bytes.iter().take_while(|byte| is_blank(**byte)).count()
}

/// Where the first tab stands.
pub fn tab_position(blanks: &[u8]) -> Option<usize>
    ensures value { result ≡ position (λ c. nat_eq c 9) blanks.now }
    ensures within { IfSome result (λ k. k < length blanks.now) }
{
    blanks.iter().position(|byte| *byte == b'\t')
}

/// Whether a line counts for nothing, by what stands behind its blanks.
pub fn is_idle(behind: &[u8]) -> bool
    ensures { result ≡ is_idle behind.now }
{
    match behind {
        [first, ..] => ends_line(behind) || *first == b';',
        [] => true,
    }
}

/// How many bytes a comment has, where one stands, and the line's end.
pub fn idle_length(behind: &[u8]) -> usize
    ensures value { result ≡ idle_length behind.now }
    ensures within { result ≤ length behind.now }
{
    let comment = comment_length(behind);
    let (_, rest) = behind.split_at(comment);
    comment + line_end_length(rest)
}

/// The fault of an indentation of so many spaces that meets no open level, or of the byte behind it that is
/// in no token.
pub fn unmet(place: Place, spaces: u32, behind: &[u8]) -> FirFault
    requires { length behind.now ≤ 16777216 }
    ensures { result ≡ unmet place spaces behind.now }
{
    if behind.is_empty() {
        return FirFault::Indent(place, spaces);
    }
    match read_front(behind) {
        Piece::BadByte(0, byte) => FirFault::Byte(place, byte),
        _ => FirFault::Indent(place, spaces),
    }
}

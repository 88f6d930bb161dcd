//! What stands at the front of a text: white space, a comment, or the longest token.

ghost use Rattle.std.specs.Prelude.{◌≡◌, ◌≤◌, length};
ghost use Rattle.ver_lex.specs.working.Fronts.{word_length, front};

use crate::byte::is_blank;
use crate::comment::{read_block_comment, read_line_comment};
use crate::kind::Kind;
use crate::number::read_number;
use crate::piece::Piece;
use crate::sign::read_sign;
use fir_base::{is_digit, is_word_byte, is_word_start};

fn word_length(bytes: &[u8]) -> usize
    ensures value { result ≡ word_length bytes.now }
    ensures within { result ≤ length bytes.now }
{
    bytes.iter().take_while(|byte| is_word_byte(**byte)).count()
}

/// What stands at the front of some bytes.
pub fn read_front(bytes: &[u8]) -> Piece
    requires { 1 ≤ length bytes.now }
    ensures { result ≡ front bytes.now }
{
    let first = bytes[0];
    if is_blank(first) {
        Piece::Passed(1)
    } else if is_word_start(first) {
        Piece::Token(Kind::Word, word_length(bytes))
    } else if is_digit(first) {
        read_number(bytes)
    } else if bytes.starts_with(b"//") {
        read_line_comment(bytes)
    } else if bytes.starts_with(b"/*") {
        read_block_comment(bytes)
    } else if bytes.starts_with(b"$signed") {
        Piece::Token(Kind::SignedWord, 7)
    } else {
        read_sign(bytes)
    }
}

//! The longest token at the front of a text, within a line.

ghost use Rattle.std.specs.Prelude.{◌≡◌, ◌≤◌, length, slice_index, drop};
ghost use Rattle.fir_base.specs.working.Bytes.{starts_with_digit};
ghost use Rattle.fir_lex.specs.working.Front.{marked_at, front};
ghost use Rattle.fir_lex.specs.working.View.{front_of, IsWithinBytes};

use crate::annotation::read_annotations;
use crate::byte::{is_blank, starts_with_byte};
use crate::information::{comment_length, read_information};
use crate::number::read_integer;
use crate::piece::Piece;
use crate::sign::read_sign;
use crate::string::read_string;
use crate::word::read_word;
use fir_base::{is_digit, is_word_start};

#[tactic(auto, using(crate::proofs::Bytes::digit_first_is))]
fn starts_with_digit(bytes: &[u8]) -> bool
    ensures { result ≡ starts_with_digit bytes.now }
{
    match bytes {
        [first, ..] => is_digit(*first),
        [] => false,
    }
}

/// What begins with a mark that is no word and no integer.
fn read_marked(bytes: &[u8]) -> Piece
    requires some { 1 ≤ length bytes.now }
    requires short { length bytes.now ≤ 16777216 }
    ensures front { front_of bytes.now result ≡ marked_at (slice_index bytes.now 0) (drop 1 bytes.now) }
    ensures within { IsWithinBytes bytes.now result }
{
    let first = bytes[0];
    let (_, behind) = bytes.split_at(1);
    if first == b'"' {
        read_string(bytes)
    } else if first == b'@' && starts_with_byte(b'[', behind) {
        read_information(bytes)
    } else if first == b'%' && starts_with_byte(b'[', behind) {
        read_annotations(bytes)
    } else {
        read_sign(bytes)
    }
}

/// What stands at the front, where no line's end stands.
pub fn read_front(bytes: &[u8]) -> Piece
    requires some { 1 ≤ length bytes.now }
    requires short { length bytes.now ≤ 16777216 }
    ensures front { front_of bytes.now result ≡ front (slice_index bytes.now 0) (drop 1 bytes.now) }
    ensures within { IsWithinBytes bytes.now result }
{
    let first = bytes[0];
    let (_, behind) = bytes.split_at(1);
    if is_blank(first) {
        Piece::Passed(1)
    } else if first == b';' {
        Piece::Passed(comment_length(bytes))
    } else if is_word_start(first) {
        read_word(bytes)
    } else if is_digit(first) {
        read_integer(bytes, 0)
    } else if (first == b'+' || first == b'-') && starts_with_digit(behind) {
        read_integer(bytes, 1)
    } else {
        read_marked(bytes)
    }
}

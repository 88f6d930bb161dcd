//! Words (FIRRTL spec, "Details about Syntax").

ghost use Rattle.std.specs.Prelude.{◌≡◌, ◌≤◌, IfSome, length, take, take_while, option_map};
ghost use Rattle.fir_base.specs.Bytes.{is_word_byte};
ghost use Rattle.fir_lex.specs.working.Front.{dash_word_at, word_front};
ghost use Rattle.fir_lex.specs.working.View.{front_of, IsWithinBytes, AtWord};

use crate::piece::{Found, Piece};
use crate::token::Kind;
use fir_base::is_word_byte;

/// How many bytes the word with a dash at the front has.
fn dash_word_length(bytes: &[u8]) -> Option<usize>
    ensures word { option_map (λ n. take n bytes.now) result ≡ dash_word_at bytes.now }
    ensures some { IfSome result (λ n. 1 ≤ n) }
    ensures within { IfSome result (λ n. n ≤ length bytes.now) }
{
    if bytes.starts_with(b"data-type") {
        Some(9)
    } else if bytes.starts_with(b"read-latency") {
        Some(12)
    } else if bytes.starts_with(b"write-latency") {
        Some(13)
    } else if bytes.starts_with(b"read-under-write") {
        Some(16)
    } else {
        None
    }
}

fn word_length(bytes: &[u8]) -> usize
    ensures { result ≡ length (take_while is_word_byte bytes.now) }
{
    bytes.iter().take_while(|byte| is_word_byte(**byte)).count()
}

/// The longest word at the front.
pub fn read_word(bytes: &[u8]) -> Piece
    requires { AtWord bytes.now }
    ensures front { front_of bytes.now result ≡ word_front bytes.now }
    ensures within { IsWithinBytes bytes.now result }
{
    match dash_word_length(bytes) {
        Some(count) => Piece::Found(Found::whole(Kind::DashWord, count)),
        None => Piece::Found(Found::whole(Kind::Word, word_length(bytes))),
    }
}

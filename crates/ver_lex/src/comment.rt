//! Comments (IEEE 1364-2005, 3.3).

ghost use Rattle.std.specs.Prelude.{◌≡◌, ◌+◌, ◌≤◌, IfSome, length, drop};
ghost use Rattle.ver_lex.specs.working.Fronts.{line_length, ends_block, block_length, block_front};

use crate::byte::starts_with_byte;
use crate::piece::Piece;

/// How many bytes stand before the line's end, or the text's.
fn line_length(bytes: &[u8]) -> usize
    ensures { result ≡ line_length bytes.now }
{
    bytes.iter().take_while(|byte| **byte != b'\n').count()
}

/// The comment on one line whose two slashes stand at the front.
pub fn read_line_comment(bytes: &[u8]) -> Piece
    requires { 2 ≤ length bytes.now }
    ensures { result ≡ Piece.Passed (2 + line_length (drop 2 bytes.now)) }
{
    let (_, content) = bytes.split_at(2);
    Piece::Passed(2 + line_length(content))
}

/// Whether the end of a block comment stands at the front.
#[tactic(auto, using(crate::proofs::Bytes::block_end_is))]
fn ends_block(bytes: &[u8]) -> bool
    ensures { result ≡ ends_block bytes.now }
{
    match bytes {
        [first, behind @ ..] => *first == b'*' && starts_with_byte(b'/', behind),
        [] => false,
    }
}

/// How many bytes stand before the end of a block comment.
fn block_length(bytes: &[u8]) -> Option<usize>
    ensures value { result ≡ block_length bytes.now }
    ensures within { IfSome result (λ n. n + 2 ≤ length bytes.now) }
{
    for i in 0..bytes.len() {
        let (_, rest) = bytes.split_at(i);
        if ends_block(rest) {
            return Some(i);
        }
    }
    None
}

/// The block comment whose `/*` stands at the front.
pub fn read_block_comment(bytes: &[u8]) -> Piece
    requires { 2 ≤ length bytes.now }
    ensures { result ≡ block_front (block_length (drop 2 bytes.now)) }
{
    let (_, content) = bytes.split_at(2);
    match block_length(content) {
        Some(count) => Piece::Passed(count + 4),
        None => Piece::Nothing,
    }
}

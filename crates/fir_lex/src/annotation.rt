//! Annotation blocks (FIRRTL spec, "Annotations").

ghost use Rattle.std.specs.Prelude.{◌≡◌, ◌+◌, ◌<◌, ◌≤◌, ◌^◌, IfSome, length, drop};
ghost use Rattle.fir_lex.specs.working.Front.{in_brackets, within_step, is_closed, block_length, annotations_front};
ghost use Rattle.fir_lex.specs.working.View.{front_of, IsWithinBytes};
ghost use Rattle.fir_lex.specs.working.Blocks.{within_of, depth_of};

use crate::piece::{Found, Piece};
use crate::token::Kind;

/// Where a block stands: at a depth of open brackets, or within a JSON string at one, behind a backslash or
/// not.
#[derive(Clone, Copy)]
enum Within {
    Brackets(usize),
    String(bool, usize),
}

impl Within {
    fn next(self, byte: u8) -> Within
        requires { depth_of self < 2 ^ 63 }
        ensures value { within_of result ≡ within_step (within_of self) byte }
        ensures depth { depth_of result ≤ depth_of self + 1 }
    {
        match self {
            Within::Brackets(depth) => match byte {
                b'"' => Within::String(false, depth),
                b'[' => Within::Brackets(depth + 1),
                b']' => Within::Brackets(depth.saturating_sub(1)),
                _ => Within::Brackets(depth),
            },
            Within::String(true, depth) => Within::String(false, depth),
            Within::String(false, depth) => {
                if byte == b'"' {
                    Within::Brackets(depth)
                } else {
                    Within::String(byte == b'\\', depth)
                }
            }
        }
    }

    fn is_closed(self) -> bool
        ensures { result ≡ is_closed (within_of self) }
    {
        match self {
            Within::Brackets(depth) => depth == 0,
            Within::String(_, _) => false,
        }
    }
}

/// How many bytes the block has behind its first bracket, with the one that closes it.
fn block_length(bytes: &[u8]) -> Option<usize>
    requires { length bytes.now ≤ 16777216 }
    ensures value { result ≡ block_length (in_brackets 1) bytes.now }
    ensures within { IfSome result (λ n. n ≤ length bytes.now) }
{
    let mut within = Within::Brackets(1);
    for (i, byte) in bytes.iter().enumerate() {
        within = within.next(*byte);
        if within.is_closed() {
            return Some(i + 1);
        }
    }
    None
}

/// The annotation block whose `%[` stands at the front.
pub fn read_annotations(bytes: &[u8]) -> Piece
    requires some { 2 ≤ length bytes.now }
    requires short { length bytes.now ≤ 16777216 }
    ensures front { front_of bytes.now result ≡ annotations_front (block_length (in_brackets 1) (drop 2 bytes.now)) }
    ensures within { IsWithinBytes bytes.now result }
{
    let (_, block) = bytes.split_at(2);
    match block_length(block) {
        None => Piece::BadByte(0, b'%'),
        Some(count) => Piece::Found(Found {
            kind: Kind::Annotations,
            from: 0,
            upto: 0,
            length: count + 2,
        }),
    }
}

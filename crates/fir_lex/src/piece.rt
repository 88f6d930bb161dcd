//! What stands at the front of a text, within a line.

ghost use Rattle.std.specs.Prelude.{◌≡◌, ◌≤◌};

use crate::token::Kind;

/// A token of `length` bytes, of which those from `from` to before `upto` spell it.
#[derive(Clone, Copy)]
pub struct Found {
    pub kind: Kind,
    pub from: usize,
    pub upto: usize,
    pub length: usize,
    ghost ordered: { from ≤ upto },
    ghost inside: { upto ≤ length },
    ghost some: { 1 ≤ length },
}

impl Found {
    /// A token that all of its bytes spell.
    pub fn whole(kind: Kind, count: usize) -> Found
        requires { 1 ≤ count }
        ensures kind { result.kind ≡ kind }
        ensures from { result.from ≡ 0 }
        ensures upto { result.upto ≡ count }
        ensures length { result.length ≡ count }
    {
        Found {
            kind,
            from: 0,
            upto: count,
            length: count,
        }
    }
}

#[derive(Clone, Copy)]
pub enum Piece {
    Found(Found),
    /// So many bytes that are no token.
    Passed(usize),
    /// A byte in no token, so many bytes on.
    BadByte(usize, u8),
    /// A literal out of form or range.
    BadLiteral,
}

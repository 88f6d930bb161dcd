//! What stands at the front of a text.

use crate::kind::Kind;

#[derive(Clone, Copy)]
pub enum Piece {
    /// So many bytes of white space, or of a comment.
    Passed(usize),
    /// A token of so many bytes.
    Token(Kind, usize),
    /// A constant of so many bytes, and a `?` directly behind it.
    Questioned(usize),
    /// No token, no white space and no comment.
    Nothing,
}

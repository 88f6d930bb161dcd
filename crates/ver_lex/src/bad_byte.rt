//! Where a text stops to have tokens.

use ver_ast::VPlace;

/// A byte that is in no token, and its place: also the first byte of a block comment that is not closed.
#[derive(Clone, Copy)]
pub struct BadByte {
    pub place: VPlace,
    pub byte: u8,
}

//! What a token is, and where the bytes stand that spell it.

use ver_ast::VPlace;

#[derive(Clone, Copy)]
pub enum Kind {
    Word,
    /// The one digit 0.
    Zero,
    Number,
    Constant,
    Sign,
    Double,
    SignedShift,
    SignedWord,
    QuestionDigit,
}

/// A token, and the bytes of the text that spell it, from `start` to before `end`.
#[derive(Clone, Copy)]
pub struct Item {
    pub kind: Kind,
    pub place: VPlace,
    pub start: u32,
    pub end: u32,
}

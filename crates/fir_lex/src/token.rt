//! Tokens.

ghost use Rattle.fir_lex.specs.working.Numbers.{HasNumber};

use fir_ast::Place;

/// What a token is.
#[derive(Clone, Copy)]
pub enum Kind {
    /// A letter or an underscore, then letters, digits, underscores and dollar signs.
    Word,
    /// One of the four words with a dash.
    DashWord,
    /// Digits, behind a sign or none, and the number that the digits spell.
    Integer(u128),
    /// A string in double quotes.
    Text,
    /// One of `<= <- => = < > ( ) [ ] { } , : .`.
    Sign,
    /// An annotation block.
    Annotations,
    LineEnd,
    LevelOpens,
    LevelCloses,
}

/// A token of a text that is at hand.
#[derive(Clone, Copy)]
pub struct TokenRef<'a> {
    pub kind: Kind,
    /// The bytes that spell a word, an integer or a sign, or that stand between the quotes of a string.
    /// Nothing for other kinds.
    pub spelling: &'a [u8],
    /// Where its first byte stands.
    pub place: Place,
    ghost number: { HasNumber kind spelling.now },
}

/// A token, and the bytes of the text that spell it, from `start` to before `end`.
#[derive(Clone, Copy)]
pub struct Item {
    pub kind: Kind,
    pub place: Place,
    pub start: u32,
    pub end: u32,
}

//! Tokens as the grammar sees them.

ghost use Rattle.ver_lex.specs.working.Lexemes.{Sees};
ghost use Rattle.ver_lex.specs.working.View.{HasBytes, token_of};

use crate::constant::{constant, counted};
use crate::kind::Kind;
use ver_ast::{Constant, VPlace};

/// A token as the grammar sees it: a number as far as a tree counts it, a constant as a tree has it.
#[derive(Clone, Copy)]
pub enum Lexeme<'a> {
    /// A name or a reserved word (IEEE 1364-2005, 3.7).
    Word(&'a [u8]),
    /// The one digit 0.
    Zero,
    /// Any other digits without a base (IEEE 1364-2005, 3.5.1). What is past 4294967294 is this number.
    Number(u32),
    /// A width, a quote, a letter for the base, and digits (IEEE 1364-2005, 3.5.1). A width past 4294967294 is
    /// this number.
    Constant(Constant),
    /// A sign of one byte.
    Sign(u8),
    /// One of `(* *) <= >= == != << >>`.
    Double(u8, u8),
    /// `>>>`
    SignedShift,
    /// `$signed`
    SignedWord,
    /// A `?` directly behind a constant, which other tools count among its digits.
    QuestionDigit,
}

/// A token that is at hand.
#[derive(Clone, Copy)]
pub struct Next<'a> {
    pub lexeme: Lexeme<'a>,
    /// Where its first byte stands.
    pub place: VPlace,
}

/// A token of this kind, by the bytes that spell it.
pub(crate) fn seen_as(kind: Kind, spelling: &[u8]) -> Lexeme<'_>
    requires { HasBytes kind spelling.now }
    ensures { Sees result (token_of kind spelling.now) }
{
    match kind {
        Kind::Word => Lexeme::Word(spelling),
        Kind::Zero => Lexeme::Zero,
        Kind::Number => Lexeme::Number(counted(spelling)),
        Kind::Constant => Lexeme::Constant(constant(spelling)),
        Kind::Sign => Lexeme::Sign(spelling[0]),
        Kind::Double => Lexeme::Double(spelling[0], spelling[1]),
        Kind::SignedShift => Lexeme::SignedShift,
        Kind::SignedWord => Lexeme::SignedWord,
        Kind::QuestionDigit => Lexeme::QuestionDigit,
    }
}

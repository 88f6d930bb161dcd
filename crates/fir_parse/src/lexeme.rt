//! Tokens as the grammar sees them.

ghost use Rattle.std.specs.Prelude.{◌≡◌};
ghost use Rattle.fir_parse.specs.Lexemes.{sign_lexeme};
ghost use Rattle.fir_parse.specs.working.Seen.{option_mark};

use crate::integer::Integer;
use fir_lex::{Kind, TokenRef};

/// A sign of the grammar.
#[derive(Clone, Copy, PartialEq, Eq)]
pub enum Mark {
    /// `<=`
    Connect,
    /// `<-`
    PartialConnect,
    /// `=>`
    Arrow,
    /// `=`
    Equals,
    /// `<`
    Less,
    /// `>`
    Greater,
    OpenRound,
    CloseRound,
    OpenSquare,
    CloseSquare,
    OpenCurly,
    CloseCurly,
    Comma,
    Colon,
    Dot,
}

/// A token, with the bytes that spell it where it has a choice of them.
#[derive(Clone, Copy)]
pub enum Lexeme<'a> {
    Word(&'a [u8]),
    /// One of the four words with a dash.
    DashWord(&'a [u8]),
    Integer(Integer<'a>),
    /// The bytes between the quotes of a string.
    Text(&'a [u8]),
    Mark(Mark),
    Annotations,
    LineEnd,
    LevelOpens,
    LevelCloses,
    /// A sign that the grammar does not have.
    Other,
    /// No token: the text has ended.
    End,
}

impl<'a> Lexeme<'a> {
    ghost use Rattle.std.specs.Prelude.{◌≡◌, ◌≢◌};
    ghost use Rattle.fir_lex.specs.working.View.{token_of};
    ghost use Rattle.fir_parse.specs.Lexemes.{lexeme_of, sign_lexeme};
    ghost use Rattle.fir_parse.specs.working.Seen.{seen};

    /// The token as the grammar sees it.
    pub fn of(token: TokenRef<'a>) -> Lexeme<'a>
        ensures same { seen result ≡ lexeme_of (token_of token.entry.kind token.entry.spelling.now) }
        ensures some { result ≢ Lexeme.End }
    {
        match token.kind {
            Kind::Word => Lexeme::Word(token.spelling),
            Kind::DashWord => Lexeme::DashWord(token.spelling),
            Kind::Integer(number) => Lexeme::Integer(Integer {
                spelling: token.spelling,
                number,
            }),
            Kind::Text => Lexeme::Text(token.spelling),
            Kind::Sign => Lexeme::of_sign(token.spelling),
            Kind::Annotations => Lexeme::Annotations,
            Kind::LineEnd => Lexeme::LineEnd,
            Kind::LevelOpens => Lexeme::LevelOpens,
            Kind::LevelCloses => Lexeme::LevelCloses,
        }
    }

    fn of_sign(sign: &[u8]) -> Lexeme<'a>
        ensures same { seen result ≡ sign_lexeme sign.now }
        ensures some { result ≢ Lexeme.End }
    {
        match mark_of(sign) {
            Some(mark) => Lexeme::Mark(mark),
            None => Lexeme::Other,
        }
    }
}

/// The sign that is spelled so.
fn mark_of(sign: &[u8]) -> Option<Mark>
    ensures { option_mark result ≡ sign_lexeme sign.now }
{
    match sign {
        b"<=" => Some(Mark::Connect),
        b"<-" => Some(Mark::PartialConnect),
        b"=>" => Some(Mark::Arrow),
        b"=" => Some(Mark::Equals),
        b"<" => Some(Mark::Less),
        b">" => Some(Mark::Greater),
        b"(" => Some(Mark::OpenRound),
        b")" => Some(Mark::CloseRound),
        b"[" => Some(Mark::OpenSquare),
        b"]" => Some(Mark::CloseSquare),
        b"{" => Some(Mark::OpenCurly),
        b"}" => Some(Mark::CloseCurly),
        b"," => Some(Mark::Comma),
        b":" => Some(Mark::Colon),
        b"." => Some(Mark::Dot),
        _ => None,
    }
}

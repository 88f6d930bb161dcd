//! The words with which an item begins.

ghost use Rattle.std.specs.Prelude.{◌≡◌, IfSome, true};
ghost use Rattle.ver_ast.specs.Grammar.{direction_keyword};
ghost use Rattle.std.specs.Str.{bytes_eq};
ghost use Rattle.ver_parse.specs.working.Steps.{direction_of, keyword_of, keyword_word};

use fir_base::Direction;

/// The first word of an item.
#[derive(Clone, Copy)]
pub enum Keyword {
    Wire,
    Reg,
    Assign,
    Always,
}

/// The keyword that is spelled so.
pub fn keyword_of(spelling: &[u8]) -> Option<Keyword>
    ensures value { result ≡ keyword_of spelling.now }
    ensures spelled { IfSome result (λ k. spelling.now ≡ keyword_word k) }
{
    if is(spelling, b"wire") {
        Some(Keyword::Wire)
    } else if is(spelling, b"reg") {
        Some(Keyword::Reg)
    } else if is(spelling, b"assign") {
        Some(Keyword::Assign)
    } else if is(spelling, b"always") {
        Some(Keyword::Always)
    } else {
        None
    }
}

/// The direction of a port that is spelled so.
pub fn direction_of(spelling: &[u8]) -> Option<Direction>
    ensures value { result ≡ direction_of spelling.now }
    ensures spelled { IfSome result (λ d. spelling.now ≡ direction_keyword d) }
{
    if is(spelling, b"input") {
        Some(Direction::Input)
    } else if is(spelling, b"output") {
        Some(Direction::Output)
    } else {
        None
    }
}

fn is(spelling: &[u8], word: &[u8]) -> bool
    ensures value { result ≡ bytes_eq spelling.now word.now }
    ensures same { result ≡ true → spelling.now ≡ word.now }
{
    spelling == word
}

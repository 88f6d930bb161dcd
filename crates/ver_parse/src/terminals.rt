//! Names, numbers and constants.

ghost use Rattle.std.specs.Prelude.{◌≡◌};
ghost use Rattle.std.specs.List.{list_all};
ghost use Rattle.fir_base.specs.Bytes.{is_word_byte};
ghost use Rattle.ver_words.specs.Names.{is_word};
ghost use Rattle.ver_parse.specs.working.Steps.{is_name};

use crate::parser::Parser;
use crate::stop::Stop;
use fir_base::{Name, is_word_byte, is_word_start};
use ver_ast::Constant;
use ver_lex::Lexeme;
use ver_words::is_reserved;

fn are_word_bytes(bytes: &[u8]) -> bool
    ensures { result ≡ list_all is_word_byte bytes.now }
{
    bytes.iter().all(|byte| is_word_byte(*byte))
}

/// Whether the bytes are spelled as a name (IEEE 1364-2005, 3.7).
fn is_word(spelling: &[u8]) -> bool
    ensures { result ≡ is_word spelling.now }
{
    match spelling {
        [first, rest @ ..] => is_word_start(*first) && are_word_bytes(rest),
        [] => false,
    }
}

/// Whether the word is spelled as a name and is not reserved (IEEE 1364-2005, Annex B).
fn is_name(spelling: &[u8]) -> bool
    ensures { result ≡ is_name spelling.now }
{
    is_word(spelling) && !is_reserved(spelling)
}

impl<'t> Parser<'t> {
    ghost use Rattle.std.specs.Prelude.{◌≡◌, ◌<◌, ◌≤◌, [], ◌∷◌, IfErr, IfOk, OnOk};
    ghost use Rattle.ver_words.specs.Names.{IsName};
    ghost use Rattle.ver_ast.specs.AtomForms.{constant_number};
    ghost use Rattle.ver_ast.specs.Tokens.{constant, number, word};
    ghost use Rattle.ver_ast.specs.Spells.{IsInType};
    ghost use Rattle.ver_parse.specs.working.Fixed.{is_number_token, is_word_token, HeadTells};
    ghost use Rattle.ver_parse.specs.working.Reads.{left, Gives, Halts};
    ghost use Rattle.ver_parse.specs.working.Symbols.{a_constant, a_name, a_number};

    /// Whether the token at hand is a word.
    pub fn sees_word(&self) -> Result<bool, Stop>
        ensures { HeadTells is_word_token self.now result }
    {
        match self.peek()?.lexeme {
            Lexeme::Word(_) => Ok(true),
            _ => Ok(false),
        }
    }

    /// Whether the token at hand is a number.
    pub fn sees_number(&self) -> Result<bool, Stop>
        ensures { HeadTells is_number_token self.now result }
    {
        match self.peek()?.lexeme {
            Lexeme::Zero => Ok(true),
            Lexeme::Number(_) => Ok(true),
            _ => Ok(false),
        }
    }

    /// A name: a word that is not reserved.
    pub fn name(&mut self) -> Result<Name, Stop>
        ensures gives { IfOk result (λ n. Gives (a_name ∷ []) (word n ∷ []) self.old self.new) }
        ensures halts { IfErr result (λ s. Halts (a_name ∷ []) self.old s) }
        ensures nearer { OnOk result (left self.new < left self.old) }
        ensures named { IfOk result IsName }
    {
        match self.peek()?.lexeme {
            Lexeme::Word(spelling) => {
                if is_name(spelling) {
                    self.pass();
                    Ok(Name::new(self.alloc, spelling)?)
                } else {
                    Err(self.unexpected())
                }
            }
            _ => Err(self.unexpected()),
        }
    }

    /// A number, as far as a tree counts it.
    pub fn number(&mut self) -> Result<u32, Stop>
        ensures gives { IfOk result (λ n. Gives (a_number ∷ []) (number n ∷ []) self.old self.new) }
        ensures halts { IfErr result (λ s. Halts (a_number ∷ []) self.old s) }
        ensures nearer { OnOk result (left self.new < left self.old) }
        ensures counted { IfOk result (λ n. n ≤ 4294967294) }
    {
        match self.peek()?.lexeme {
            Lexeme::Zero => {
                self.pass();
                Ok(0)
            }
            Lexeme::Number(found) => {
                self.pass();
                Ok(found)
            }
            _ => Err(self.unexpected()),
        }
    }

    /// A constant.
    pub fn constant(&mut self) -> Result<Constant, Stop>
        ensures gives { IfOk result (λ c. Gives (a_constant ∷ []) (constant c.width (constant_number c) ∷ []) self.old self.new) }
        ensures halts { IfErr result (λ s. Halts (a_constant ∷ []) self.old s) }
        ensures nearer { OnOk result (left self.new < left self.old) }
        ensures in_type { IfOk result (λ c. IsInType c.number) }
    {
        match self.peek()?.lexeme {
            Lexeme::Constant(found) => {
                self.pass();
                Ok(found)
            }
            _ => Err(self.unexpected()),
        }
    }
}

//! One token that is expected.

ghost use Rattle.fir_parse.specs.working.Trees.{IsOpened, IsEnded};

use crate::lexeme::{Lexeme, Mark};
use crate::parser::Parser;
use crate::stop::Stop;
use fir_ast::{FirFault, Ident, Place};
use fir_base::{MemoryOut, Name};

/// An integer without a sign.
#[derive(Clone, Copy)]
pub struct Natural {
    pub place: Place,
    pub number: u128,
}

impl Natural {
    ghost use Rattle.std.specs.Prelude.{◌≡◌, ◌^◌, ◌<◌};

    fn new(place: Place, number: u128) -> Natural
        ensures parts { result ≡ record { place = place; number = number } }
        ensures in_range { number < 2 ^ 128 }
    {
        Natural { place, number }
    }
}

impl<'t> Parser<'t> {
    ghost use Rattle.std.specs.Prelude.{◌≡◌, ◌<◌, IfOk, OnOk};
    ghost use Rattle.fir_ast.specs.working.Views.{named_of};
    ghost use Rattle.fir_parse.specs.working.Reads.{left, rest, Reads};
    ghost use Rattle.fir_parse.specs.working.States.{wants};
    ghost use Rattle.fir_parse.specs.working.Symbols.{a_mark, a_word, a_name, a_field_name, a_natural, a_line_end, an_opening, a_closing};
    ghost use Rattle.fir_parse.specs.working.Trees.{natural_of, IsUnsupported};

    /// The sign, and where it stands.
    pub fn mark(&mut self, mark: Mark) -> Result<Place, Stop>
        ensures reads { Reads (wants (a_mark mark)) (λ p. p) (rest self.old) (rest self.new) result }
        ensures nearer { OnOk result (left self.new < left self.old) }
    {
        let next = self.peek();
        match next.lexeme {
            Lexeme::Mark(found) if found == mark => {
                self.pass();
                Ok(next.place)
            }
            _ => Err(next.refused()),
        }
    }

    /// The word, and where it stands.
    pub fn word(&mut self, word: &[u8]) -> Result<Place, Stop>
        ensures reads { Reads (wants (a_word word.now)) (λ p. p) (rest self.old) (rest self.new) result }
        ensures nearer { OnOk result (left self.new < left self.old) }
    {
        let next = self.peek();
        match next.lexeme {
            Lexeme::Word(found) if found == word => {
                self.pass();
                Ok(next.place)
            }
            _ => Err(next.refused()),
        }
    }

    /// A name, which is any word.
    pub fn name(&mut self) -> Result<Ident, Stop>
        ensures reads { Reads (wants a_name) named_of (rest self.old) (rest self.new) result }
        ensures nearer { OnOk result (left self.new < left self.old) }
    {
        let next = self.peek();
        match next.lexeme {
            Lexeme::Word(word) => {
                self.pass();
                Ok(self.ident(next.place, word)?)
            }
            _ => Err(next.refused()),
        }
    }

    /// A field's name: a word, or a run of digits.
    pub fn field_name(&mut self) -> Result<Ident, Stop>
        ensures reads { Reads (wants a_field_name) named_of (rest self.old) (rest self.new) result }
        ensures nearer { OnOk result (left self.new < left self.old) }
    {
        let next = self.peek();
        match next.lexeme {
            Lexeme::Word(word) => {
                self.pass();
                Ok(self.ident(next.place, word)?)
            }
            Lexeme::Integer(integer) if !integer.has_sign() => {
                self.pass();
                Ok(self.ident(next.place, integer.spelling)?)
            }
            _ => Err(next.refused()),
        }
    }

    /// A name at a place.
    pub fn ident(&self, place: Place, name: &[u8]) -> Result<Ident, MemoryOut>
        ensures { IfOk result (λ i. named_of i ≡ record { place = place; name = name.now }) }
    {
        Ok(Ident {
            place,
            name: Name::new(self.alloc, name)?,
        })
    }

    /// An integer without a sign.
    pub fn natural(&mut self) -> Result<Natural, Stop>
        ensures reads { Reads (wants a_natural) natural_of (rest self.old) (rest self.new) result }
        ensures nearer { OnOk result (left self.new < left self.old) }
    {
        let next = self.peek();
        match next.lexeme {
            Lexeme::Integer(integer) if !integer.has_sign() => {
                self.pass();
                Ok(Natural::new(next.place, integer.number))
            }
            _ => Err(next.refused()),
        }
    }

    /// The end of a line, and where it stands.
    pub fn line_end(&mut self) -> Result<Place, Stop>
        ensures reads { Reads (wants a_line_end) (λ p. p) (rest self.old) (rest self.new) result }
        ensures nearer { OnOk result (left self.new < left self.old) }
    {
        let next = self.peek();
        match next.lexeme {
            Lexeme::LineEnd => {
                self.pass();
                Ok(next.place)
            }
            _ => Err(next.refused()),
        }
    }

    /// A level that opens.
    pub fn opening(&mut self) -> Result<Place, Stop>
        ensures reads { Reads (wants an_opening) (λ p. p) (rest self.old) (rest self.new) result }
        ensures nearer { OnOk result (left self.new < left self.old) }
    {
        let next = self.peek();
        match next.lexeme {
            Lexeme::LevelOpens => {
                self.pass();
                Ok(next.place)
            }
            _ => Err(next.refused()),
        }
    }

    /// A level that closes.
    pub fn closing(&mut self) -> Result<Place, Stop>
        ensures reads { Reads (wants a_closing) (λ p. p) (rest self.old) (rest self.new) result }
        ensures nearer { OnOk result (left self.new < left self.old) }
    {
        let next = self.peek();
        match next.lexeme {
            Lexeme::LevelCloses => {
                self.pass();
                Ok(next.place)
            }
            _ => Err(next.refused()),
        }
    }

    /// Why the parser stops at the word of a form that is not in the language.
    pub fn unsupported(&self, place: Place, word: &[u8]) -> Stop
        ensures { IsUnsupported place word.now result }
    {
        match Name::new(self.alloc, word) {
            Ok(name) => Stop::Fault(FirFault::Unsupported(place, name)),
            Err(MemoryOut) => Stop::Memory,
        }
    }
}

/// Stops where the blocks and brackets that are open, with one more that opens at the place, are 257.
pub fn open_one(depth: u32, place: Place) -> Result<(), Stop>
    ensures opens { IsOpened depth place result }
{
    if depth >= 256 {
        return Err(Stop::Fault(FirFault::Depth(place)));
    }
    Ok(())
}

/// Stops where a form of height 257 ends at the place.
pub fn end_form(height: u32, place: Place) -> Result<(), Stop>
    ensures ends { IsEnded height place result }
{
    if height > 256 {
        return Err(Stop::Fault(FirFault::Depth(place)));
    }
    Ok(())
}

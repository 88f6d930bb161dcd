//! Literals (FIRRTL spec, "Literals").

ghost use Rattle.fir_parse.specs.working.Ranges.{numeral_of, IsNumbered};

use crate::lexeme::{Lexeme, Mark};
use crate::numerals::{Numeral, integer_numeral, text_numeral};
use crate::parser::Parser;
use crate::stop::Stop;
use crate::terminals::open_one;
use fir_ast::{FirFault, Literal, Place};

impl<'t> Parser<'t> {
    ghost use Rattle.std.specs.Prelude.{◌<◌, OnOk};
    ghost use Rattle.fir_ast.specs.Expressions.{literal};
    ghost use Rattle.fir_parse.specs.working.ExpressionRules.{literal_rest};
    ghost use Rattle.fir_parse.specs.working.Plans.{sized_plan};
    ghost use Rattle.fir_parse.specs.working.Reads.{left, rest, Reads};
    ghost use Rattle.fir_parse.specs.working.States.{wants};
    ghost use Rattle.fir_parse.specs.working.Symbols.{a_literal};

    /// The number of a literal: an integer or a string.
    pub fn literal(
        &mut self,
        place: Place,
        signed: bool,
        width: Option<u128>,
    ) -> Result<Literal, Stop>
        ensures reads { Reads (wants (a_literal place signed width)) (λ l. l) (rest self.old) (rest self.new) result }
        ensures nearer { OnOk result (left self.new < left self.old) }
    {
        let next = self.peek();
        match next.lexeme {
            Lexeme::Integer(integer) => {
                self.pass();
                let numeral = integer_numeral(integer);
                numbered(place, signed, width, Some(numeral), next.place)
            }
            Lexeme::Text(spelling) => {
                self.pass();
                numbered(place, signed, width, text_numeral(spelling), next.place)
            }
            _ => Err(next.refused()),
        }
    }

    /// The number of a literal and its closing parenthesis.
    pub fn literal_behind(
        &mut self,
        place: Place,
        signed: bool,
        width: Option<u128>,
    ) -> Result<Literal, Stop>
        ensures reads { Reads (λ k. literal_rest place signed width k) (λ l. literal l) (rest self.old) (rest self.new) result }
        ensures nearer { OnOk result (left self.new < left self.old) }
    {
        let literal = self.literal(place, signed, width)?;
        self.mark(Mark::CloseRound)?;
        Ok(literal)
    }

    /// A literal with a width, from its `<` on.
    pub fn sized_literal(&mut self, depth: u32, place: Place, signed: bool) -> Result<Literal, Stop>
        ensures reads { Reads (sized_plan signed depth place) (λ l. literal l) (rest self.old) (rest self.new) result }
        ensures nearer { OnOk result (left self.new < left self.old) }
    {
        self.mark(Mark::Less)?;
        let width = self.natural()?;
        self.mark(Mark::Greater)?;
        let open = self.mark(Mark::OpenRound)?;
        open_one(depth, open)?;
        self.literal_behind(place, signed, Some(width.number))
    }
}

/// The literal of a numeral that stands at a place, where it may have one.
fn numbered(
    place: Place,
    signed: bool,
    width: Option<u128>,
    numeral: Option<Numeral>,
    at: Place,
) -> Result<Literal, Stop>
    ensures { IsNumbered place signed width (numeral_of numeral) at result }
{
    match numeral {
        Some(number) if signed || !number.negative || number.magnitude == 0 => Ok(Literal {
            place,
            signed,
            width,
            negative: number.negative && number.magnitude != 0,
            magnitude: number.magnitude,
        }),
        _ => Err(Stop::Fault(FirFault::BadLiteral(at))),
    }
}

//! The whole text: its version and its circuit (FIRRTL spec, "Circuits").

ghost use Rattle.fir_parse.specs.working.PartPlans.{IsKnown};

use crate::lexeme::{Lexeme, Mark};
use crate::parser::Parser;
use crate::stop::Stop;
use fir_ast::{Circuit, FirFault, Place};

impl<'t> Parser<'t> {
    ghost use Rattle.fir_ast.specs.working.Views.{circuit_of};
    ghost use Rattle.fir_parse.specs.working.CircuitRules.{circuit_rest, version_plan, version_rest};
    ghost use Rattle.fir_parse.specs.working.PartPlans.{behind_major, circuit_plan, dotted_number};
    ghost use Rattle.fir_parse.specs.working.Reads.{rest, Reads};
    ghost use Rattle.fir_parse.specs.working.States.{wants};
    ghost use Rattle.fir_parse.specs.working.Symbols.{a_text, some_annotations};

    /// The version, where one is written, and the circuit.
    pub fn text(&mut self) -> Result<Circuit, Stop>
        ensures { Reads (wants a_text) circuit_of (rest self.old) (rest self.new) result }
    {
        let next = self.peek();
        match next.lexeme {
            Lexeme::Word(word) if word == b"FIRRTL".as_slice() => {
                self.pass();
                self.versioned()
            }
            _ => self.unversioned(),
        }
    }

    /// The version and the circuit, behind the word `FIRRTL`.
    fn versioned(&mut self) -> Result<Circuit, Stop>
        ensures { Reads (λ k. version_rest k) circuit_of (rest self.old) (rest self.new) result }
    {
        self.version()?;
        self.unversioned()
    }

    /// The circuit, from its word on.
    fn unversioned(&mut self) -> Result<Circuit, Stop>
        ensures { Reads (λ k. circuit_plan k) circuit_of (rest self.old) (rest self.new) result }
    {
        self.word(b"circuit")?;
        self.circuit()
    }

    /// The version, behind the word `FIRRTL`.
    #[tactic(auto, using(crate::proofs::Versions::versions))]
    fn version(&mut self) -> Result<(), Stop>
        ensures { Reads (λ k. version_plan k) (λ u. u) (rest self.old) (rest self.new) result }
    {
        self.word(b"version")?;
        let major = self.natural()?;
        known_version(major.place, major.number)?;
        self.behind_major()
    }

    /// The second and the third number of the version and the line's end, behind the first number.
    fn behind_major(&mut self) -> Result<(), Stop>
        ensures { Reads (λ k. behind_major k) (λ u. u) (rest self.old) (rest self.new) result }
    {
        self.dotted_number()?;
        self.dotted_number()?;
        self.line_end()?;
        Ok(())
    }

    /// A dot and the number behind it.
    fn dotted_number(&mut self) -> Result<(), Stop>
        ensures { Reads (λ k. dotted_number k) (λ u. u) (rest self.old) (rest self.new) result }
    {
        self.mark(Mark::Dot)?;
        self.natural()?;
        Ok(())
    }

    /// The circuit, behind its word.
    fn circuit(&mut self) -> Result<Circuit, Stop>
        ensures { Reads (λ k. circuit_rest k) circuit_of (rest self.old) (rest self.new) result }
    {
        let ident = self.name()?;
        self.mark(Mark::Colon)?;
        self.annotations()?;
        self.line_end()?;
        self.opening()?;
        let modules = self.modules()?;
        Ok(Circuit { ident, modules })
    }

    /// An annotation block, where one stands.
    fn annotations(&mut self) -> Result<(), Stop>
        ensures { Reads (wants some_annotations) (λ u. u) (rest self.old) (rest self.new) result }
    {
        let next = self.peek();
        match next.lexeme {
            Lexeme::Annotations => {
                self.pass();
                Ok(())
            }
            Lexeme::End => Err(next.refused()),
            _ => Ok(()),
        }
    }
}

/// Stops where the version's first number is neither 1 nor 2.
fn known_version(place: Place, number: u128) -> Result<(), Stop>
    ensures known { IsKnown place number result }
{
    if number != 1 && number != 2 {
        return Err(Stop::Fault(FirFault::Version(place, number)));
    }
    Ok(())
}

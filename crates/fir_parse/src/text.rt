//! From tokens to the tree.

ghost use Rattle.fir_parse.specs.working.Parsed.{Parsed, ReadWhole};

use crate::lexeme::Lexeme;
use crate::parser::Parser;
use crate::stop::Stop;
use fir_ast::{Circuit, FirFault};
use fir_base::Refused;
use fir_lex::Tokens;
use std::alloc::Global;

/// The tree that the tokens spell, or their first fault, with the tokens handed back (FIRRTL spec, "FIRRTL
/// Language Definition"): E03 to E07, in the order in which their tokens are read. Only want of memory is free.
pub fn parse(alloc: Global, tokens: Tokens) -> Result<Circuit, Refused<(FirFault, Tokens)>>
    ensures { Parsed tokens result }
{
    match read_whole(alloc, &tokens) {
        Ok(circuit) => Ok(circuit),
        Err(Stop::AtEnd) => {
            let end = tokens.end();
            Err(Refused::Fault((FirFault::Syntax(end), tokens)))
        }
        Err(Stop::Fault(fault)) => Err(Refused::Fault((fault, tokens))),
        Err(Stop::Memory) => Err(Refused::Memory),
    }
}

/// The tree of all tokens.
fn read_whole(alloc: Global, tokens: &Tokens) -> Result<Circuit, Stop>
    ensures { ReadWhole tokens.now result }
{
    let mut parser = Parser::new(alloc, tokens);
    let circuit = parser.text()?;
    let next = parser.peek();
    match next.lexeme {
        Lexeme::End => Ok(circuit),
        _ => Err(next.refused()),
    }
}

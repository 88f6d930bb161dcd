//! From tokens to the tree.

ghost use Rattle.ver_parse.specs.working.Parsed.{Parsed};
ghost use Rattle.std.specs.Prelude.{◌≡◌};
ghost use Rattle.ver_fault.specs.declared.fault.VerFault.TheVariants.{Byte};
ghost use Rattle.ver_parse.specs.working.Whole.{end_fault, IsFaultOf, ReadsWhole};

use crate::parser::Parser;
use crate::stop::Stop;
use fir_base::Refused;
use std::alloc::Global;
use ver_ast::Verilog;
use ver_fault::VerFault;
use ver_lex::{BadByte, Tokens};

/// The tree that the tokens spell (IEEE 1364-2005, Annex A, cut to the subset), with the places of its tokens; or
/// the first fault of the text: V01, V02 or V07. Only want of memory is free.
pub fn parse(alloc: Global, tokens: &Tokens) -> Result<Verilog, Refused<VerFault>>
    ensures { Parsed tokens.now result }
{
    match read(alloc, tokens) {
        Ok(tree) => match tokens.stop() {
            None => Ok(tree),
            Some(bad) => Err(Refused::Fault(byte_fault(bad))),
        },
        Err(stop) => fault_of(tokens, stop),
    }
}

/// The fault where reading stops so.
fn fault_of(tokens: &Tokens, stop: Stop) -> Result<Verilog, Refused<VerFault>>
    ensures { IsFaultOf tokens.now stop result }
{
    match stop {
        Stop::AtEnd => Err(Refused::Fault(end_fault(tokens))),
        Stop::Syntax(place) => Err(Refused::Fault(VerFault::Syntax { place })),
        Stop::Depth(place) => Err(Refused::Fault(VerFault::Depth { place })),
        Stop::Memory => Err(Refused::Memory),
    }
}

/// The fault where the tokens end too early.
fn end_fault(tokens: &Tokens) -> VerFault
    ensures { result ≡ end_fault tokens.now tokens.now.stop }
{
    match tokens.stop() {
        None => VerFault::Syntax {
            place: tokens.end(),
        },
        Some(bad) => byte_fault(bad),
    }
}

/// The tree of all tokens.
fn read(alloc: Global, tokens: &Tokens) -> Result<Verilog, Stop>
    ensures { ReadsWhole tokens.now.tokens result }
{
    let mut parser = Parser::new(alloc, tokens);
    let tree = parser.module()?;
    match parser.peek() {
        Err(_) => Ok(tree),
        Ok(next) => Err(Stop::Syntax(next.place)),
    }
}

fn byte_fault(bad: BadByte) -> VerFault
    ensures { result ≡ Byte bad.place bad.byte }
{
    VerFault::Byte {
        place: bad.place,
        byte: bad.byte,
    }
}

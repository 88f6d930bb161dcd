//! The tree of a circuit's text, or its first fault of E03 to E07.
//! What goes in are the tokens of a text. What comes out is the one tree that they spell, or the one fault
//! with the tokens handed back (`specs/`: Spells, TextFaults). The time is linear in the tokens, and
//! recursion follows the nesting, which ends at 256.
#![tactic(auto)]

mod bundles;
mod circuits;
mod declarations;
mod expressions;
mod integer;
pub mod laws;
mod lexeme;
mod literals;
mod memories;
mod modules;
mod numerals;
mod operators;
mod parser;
mod radix;
mod references;
mod registers;
mod statements;
mod stop;
mod terminals;
mod text;
mod types;
mod whens;
mod words;

pub use fir_ast::{Circuit, FirFault};
pub use fir_base::{MemoryOut, Refused};
pub use fir_lex::Tokens;
pub use text::parse;

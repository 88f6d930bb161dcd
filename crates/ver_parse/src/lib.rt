//! The tree of a text in the Verilog subset, or its first fault of V01, V02 and V07.
//! What goes in are the tokens of a text. What comes out is the tree that they spell, or the fault of the first
//! token with which no text of the grammar goes on, or of the first brace too many (`specs/`: TextFaults).
//! Only want of memory is free. The time is linear in the tokens, and recursion follows the braces, of which at
//! most 256 are open.
#![tactic(auto)]

mod atoms;
mod blocks;
mod braces;
mod declarations;
mod fixed;
mod groups;
mod items;
mod keyword;
pub mod laws;
mod modules;
mod operators;
mod parser;
mod places;
mod ports;
mod sides;
mod stop;
mod terminals;
mod text;
mod writes;

pub use text::parse;
pub use ver_ast::Verilog;
pub use ver_fault::VerFault;
pub use ver_lex::Tokens;

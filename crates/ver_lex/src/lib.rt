//! The tokens of a text in the Verilog subset, each with its place (IEEE 1364-2005, 3.1 to 3.8).
//! What goes in is any text of at most 16777216 bytes. What comes out is the list of tokens that the
//! definitions give the text, or those before its first byte that is in none, with that byte (`specs/working/`, IsLexed; `specs/`, StopsAt).
//! Only want of memory is free. The time is linear in the bytes.
#![tactic(auto)]

mod bad_byte;
mod byte;
mod comment;
mod constant;
mod cursor;
mod draft;
mod front;
mod kind;
pub mod laws;
mod lexeme;
mod lexer;
mod number;
mod piece;
mod sign;
mod tokens;

pub use bad_byte::BadByte;
pub use fir_base::MemoryOut;
pub use lexeme::{Lexeme, Next};
pub use lexer::lex;
pub use tokens::Tokens;
pub use ver_ast::{Constant, VPlace};

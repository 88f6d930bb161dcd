//! The tokens of a circuit's text, each with its place, or the first fault of E01 to E03.
//! What goes in is any text of at most 16777216 bytes. What comes out is the one list of tokens that the
//! definitions give the text (`specs/`, Lexed), or the one fault; only want of memory is free. The time is
//! linear in the bytes.
#![tactic(auto)]

mod annotation;
mod byte;
mod cursor;
mod draft;
mod front;
mod indentation;
mod information;
pub mod laws;
mod levels;
mod lexer;
mod number;
mod piece;
mod sign;
mod string;
mod token;
mod tokens;
mod word;

pub use fir_ast::{FirFault, Place};
pub use fir_base::{MemoryOut, Refused};
pub use lexer::lex;
pub use token::{Kind, TokenRef};
pub use tokens::Tokens;

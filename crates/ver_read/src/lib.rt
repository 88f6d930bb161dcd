//! Reads a text of the Verilog subset: what goes in are its bytes, and what comes out is the one valid tree that they
//! spell, or the first fault for which they are refused (`specs/`, Reads). The bytes are cut into tokens (ver_lex),
//! the tokens read as a tree (ver_parse), and the tree is looked through for what does not fit (ver_check) and for closed
//! walks (ver_loop).
#![tactic(auto)]

pub mod laws;
mod text;

pub use text::read_verilog;

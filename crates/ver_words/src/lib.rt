//! The words of Verilog that the layers below its tree need: which names may stand in the text, and what a
//! port carries (IEEE 1364-2005, 3.7, 12.3, Annex B). `is_reserved` tells the reserved words exactly, by a table
//! that has those of the standard, all of them and no other.
#![tactic(auto)]

mod modules;
mod reserved;
mod signal;

pub use modules::module_name;
pub use reserved::{RESERVED_WORDS, is_reserved, table_is_whole};
pub use signal::Signal;

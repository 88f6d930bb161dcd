//! The names of a net in the emitted text (IEEE 1364-2005, 3.7): its ports and the words of its state, and then its arrays,
//! get theirs from their paths (`leaf_names`, `array_names`), no two the same and none reserved, and inner nets the next free ones
//! behind them (`numbered`).
//! `specs/Names` has the rule, and `IsTable` what a table of them holds.
#![tactic(auto)]

mod array_names;
mod base_name;
mod free_name;
mod leaf_names;
mod name_table;
mod numbered;
mod taken;

pub use name_table::{NameTable, names};
pub use numbered::Numbered;

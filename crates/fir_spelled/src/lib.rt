//! The names that the text of a circuit spells are words, so that they can be written in Verilog.
#![tactic(auto)]

mod laws;

pub use laws::spelled_names_are_words;

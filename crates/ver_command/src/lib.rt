//! The command `vsim`: the tree that a Verilog text spells is run on a trace, and a line is printed for each tick.
//! `specs/` has what it says of a text (Vsim). What it does with its files and outputs is what each command
//! does that simulates (trace_command).
#![tactic(auto)]

mod machine;
mod vsim;

pub use vsim::Vsim;

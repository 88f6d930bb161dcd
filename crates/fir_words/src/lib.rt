//! The words of the command line: the commands that the program has (`command_set`), and what the words ask for
//! (`command`), with their numbers (`number`). The library clap reads the words, and what it takes is the definition.
#![tactic(auto)]

mod command;
mod command_set;
pub mod laws;
mod number;

pub use command::{Command, Simulation, VerilogSimulation, command_of};

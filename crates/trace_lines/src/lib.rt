//! A simulation is run on a trace, whatever it simulates: the lines of its ticks are gathered and put to the output.
#![tactic(auto)]

pub mod laws;
mod lines;
mod simulation;

pub use lines::{Finish, put_lines};
pub use simulation::{Lack, Simulation, Stop};

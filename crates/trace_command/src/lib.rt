//! A command that simulates: it reads a text and a trace, and prints a line for each tick of the trace (`simulate`). What it
//! does is the same for all: a command says what it makes of the text, and which lines are those of the ticks.
//! `specs/` has what is done (Simulates), and which status comes where nothing fails (SimulationAnswers).
#![tactic(auto)]

mod command;
mod simulation;

pub use command::SimulationCommand;
pub use simulation::simulate;

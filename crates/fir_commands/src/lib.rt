//! What each command does. A command that writes one text of one file (`text_command`) says which text that is: `emit`,
//! `check`. `sim` says which lines are those of a circuit on a trace (trace_command). All go the way of the passes
//! (fir_compile). `specs/` has what is done: TextCommands and TextAnswers for the first, with Emit and Check; Sim.
#![tactic(auto)]

mod check;
mod emit;
mod refusal;
mod sim;
mod text_command;

pub use check::Check;
pub use emit::Emit;
pub use sim::Sim;
pub use text_command::{TextCommand, put_text_of};

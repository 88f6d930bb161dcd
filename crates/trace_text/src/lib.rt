//! Traces and the lines of a simulation. A trace has `init` lines, which give words of the state, and then a
//! line for each tick, which names the clocks that rise and gives the inputs; a simulation prints, tick by
//! tick, a line of outputs and state. `specs/` says what a trace spells (Lines, Spelling, Shapes,
//! SpelledLines, TraceSpells), what is wrong with a line (LineFaults, BadLine), and what an output line is
//! (OutputLines, RunLines). `read_init` and then `next_tick`, call by call, read a trace (Readings); that
//! their steps make the whole is a law (Steps). So is that a value's word reads back to it (WrittenWords), and that
//! the lines of the first ticks begin those of the whole run (Fronts).
#![tactic(auto)]

mod circuits;
mod clock_list;
mod fault;
mod fault_line;
mod fault_place;
mod hexadecimal;
mod init;
mod init_line;
mod init_reader;
mod init_words;
pub mod laws;
mod lines;
mod number;
mod output_line;
mod places;
mod shape;
mod shape_rules;
mod spelling;
mod tick;
mod tick_faults;
mod tick_line;
mod tick_reader;
mod tick_words;
mod words;

pub use circuits::Circuits;
pub use fault::{Cause, TraceFault};
pub use init::Init;
pub use init_reader::read_init;
pub use lines::bad_line;
pub use output_line::write_line;
pub use shape::{FoundWord, Shape, StateWord};
pub use tick::Tick;
pub use tick_reader::next_tick;

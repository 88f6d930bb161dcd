//! What the program does. `run` is the one call that it makes: it judges the words, and does what they ask for, by
//! the commands (fir_commands). It carries the theorem from the bytes of the files to the bytes that are written
//! (`specs/`: Program, which joins what each command does).
#![tactic(auto)]

mod program;

pub use program::run;

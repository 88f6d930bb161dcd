//! Pipes of a flat net as registers, for what knows registers alone (FIRRTL spec, "Memories"). In comes a net with its
//! order, in which a memory's port that reads late is a pipe: a word of the state that takes at an edge what it reads of
//! an array. Out comes one in which each pipe is a register; what it takes is a leaf of its own that reads the array at
//! once, behind all other leaves, and for a port that reads what is written at the same edge a choice for each write
//! (`taken`). It allows at every tick what the net allows, and the order goes on behind that of the net (`lowering`).
#![tactic(auto)]

mod built;
mod clocked_writes;
mod lowering;
mod taken;

pub use lowering::lower_pipes;

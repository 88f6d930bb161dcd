//! The types of memories over their leaves: in each module of a circuit that shows no fault of names, types or widths,
//! what a memory's ports read, write, and are addressed, enabled and clocked by is of the type that its array asks for.
//! Which memory of the module the clocks of an array's ports are of, and in which order arrays stand (FIRRTL spec,
//! "Memories"). Here are definitions and laws alone.
#![tactic(auto)]

mod laws;

pub use laws::{arrays_are_in_order, clocks_are_of_memories, memories_are_typed};

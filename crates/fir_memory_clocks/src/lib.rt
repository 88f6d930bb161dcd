//! The first fault of the clocks of memories of a design (E26; FIRRTL spec, "Memories", "Clock Type"): two ports of a
//! memory on different clocks. In comes a circuit with the nets of its modules, in which no clock is unclear, and the
//! copies of its modules in the design; out comes the fault, which is told of the circuit's source, or that its source
//! shows none (`memory_fault`). The clock of a port is the leaf at which its chain of connects ends in the module that
//! holds the memory (`clock_roots`, `two_clocks`). Each module that has a copy (`held_modules`) is searched once
//! (`module_memories`), and of its copies the first is told (`first_site`).
#![tactic(auto)]

mod clock_roots;
mod first_site;
mod held_modules;
mod memory_fault;
mod module_memories;
mod two_clocks;

pub use memory_fault::memory_clock_fault;

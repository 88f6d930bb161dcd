//! Finds the names of a circuit. In comes the tree of a text; out comes a `Named` (fir_names), the same tree with its
//! tables and an order of its modules; or the first fault of names: a name that is not visible or declared twice (E08,
//! E09), a circuit without its main module (E10), modules that have one another as instances (E11). FIRRTL spec,
//! "Circuits", "Namespaces", "Instances".
//!
//! One walk goes over the text (`module`, `statements`, `expressions`, `fields`, `memory_ports`) with what is
//! declared and visible before each place (`scope`). Behind it the modules are put in order (`hierarchy`,
//! `recursion`).
#![tactic(auto)]

mod circuit_names;
mod expressions;
mod faults;
mod fields;
mod hierarchy;
mod main_module;
mod memory_ports;
mod module;
mod modules;
mod namespace;
mod numbers;
mod pass;
mod recursion;
mod scope;
mod statements;

pub use circuit_names::resolve;
pub use pass::{Parsed, Resolve};

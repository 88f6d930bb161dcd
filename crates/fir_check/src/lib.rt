//! Finds the types and flows of a circuit. In comes a `Named`, a circuit without a fault of names; out comes a
//! `Typed` (fir_types), the same circuit with the types of what it declares; or the first fault of types and flows,
//! E12 to E17 (FIRRTL spec, "Types", "Flow", "Expressions", "Connects", "Registers", "Memories").
//!
//! One walk goes over each module in the order of the text (`module`, `statements`). What an expression is found to
//! be is told from what its operands are (`expressions`, `steps`, `forms`, `operations`).
#![tactic(auto)]

mod bundles;
mod circuit_types;
mod connects;
mod drives;
mod expressions;
mod faults;
mod forms;
mod found_pairs;
mod memory_faults;
mod memory_type;
mod module;
mod modules;
mod on_found;
mod on_reached;
mod operations;
mod pass;
mod registers;
mod statements;
mod steps;

pub use circuit_types::check;
pub use pass::CheckTypes;

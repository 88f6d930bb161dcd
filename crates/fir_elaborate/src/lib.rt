//! The walk through the instances of a design, from its main module on (FIRRTL spec, "Instances"). In come the modules
//! of a circuit over their ground leaves; out comes where each module of the design stands (`elaborated`): from which
//! numbers on its leaves and its arrays are counted in the whole, and what stands before their paths; and the words and
//! the arrays of the state in their order, in which those of an instance stand in the place of its declaration (`walk`).
#![tactic(auto)]

mod elaborated;
mod instances;
mod laws;
mod numbers;
mod walk;
mod words;

pub use elaborated::{Elaborated, ModuleCopy};
pub use laws::{arrays_are_of_copies, arrays_are_of_modules, modules_are_ordered};
pub use walk::elaborate;

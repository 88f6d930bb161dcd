//! A circuit over its ground leaves: what `expand` gives, and the passes behind it read. In a `LeafCircuit` stands
//! the circuit with its widths (`fir_width`), and of each module the leaves and the statements over them
//! (`leaf_module`): of a leaf its type and its role (`leaf`), of a memory its words (`array`). What they mean for the
//! circuit's own tree is said of `LeafCircuit::modules` (FIRRTL spec, "Connects", "Conditional Last Connect
//! Semantics").
#![tactic(auto)]

mod array;
mod leaf;
mod leaf_circuit;
mod leaf_module;
mod scenes;

pub use array::{LeafArray, Writing};
pub use leaf::{Leaf, LeafRole, LeafType, ReadingRole, ResetRole};
pub use leaf_circuit::LeafCircuit;
pub use leaf_module::{LeafModule, MemoryClocks};

//! Nodes of a module's net, put in one by one, of which no two are equal. In come values, operations and choices
//! over what is there; each that comes out stands for its term of a net (fir_connect), whatever is put in behind it.
//! Here are also the literals and validifs of a module, and the conditions that dynamic indices pick an element
//! (FIRRTL spec, "Expressions", "Sub-accesses"). What whole terms over leaves become is a definition (`Made`), and
//! that it is the lowered term where that has a type is a lemma.
#![tactic(auto)]

mod bound;
mod elements;
mod index;
mod indices;
mod lower;
mod narrow;
mod net_nodes;
mod reads;
mod values;

pub use bound::Bound;
pub use elements::{Element, add_elements};
pub use index::{Index, indices_at};
pub use indices::add_condition;
pub use lower::{lower_nodes, value_at};
pub use narrow::{add_literal, add_validif};
pub use net_nodes::NetNodes;
pub use values::{add_choice, add_mux, add_operation, add_test, add_value, add_zero};

//! A circuit with its types: a `Typed` is a `Named` with the types of what each module declares, and a note of what
//! each expression is found to be (`found`, `note`). No fault of types stands in it. The types of what is declared
//! stand in one table, and are told by their ids; with them the leaves of what is declared are numbered
//! (`leaf_numbers`). fir_check finds the types. FIRRTL spec, "Types", "Flow".
#![tactic(auto)]

mod findings;
mod flow;
pub mod found;
mod leaf_numbers;
pub mod memory_fields;
mod note;
mod place;
mod reach;
mod scope;
mod sort;
mod typed;

pub use findings::Findings;
pub use flow::Flow;
pub use found::Found;
pub use leaf_numbers::first_leaves;
pub use memory_fields::{first_depth, first_word_type};
pub use note::{LeafRange, Note, Pick, note_expression, note_reference};
pub use place::place_of;
pub use reach::Reach;
pub use scope::Scope;
pub use sort::Sort;
pub use typed::Typed;

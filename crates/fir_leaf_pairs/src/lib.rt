//! Which leaves a connect pairs (`leaf_pairs`, `partial_leaf_pairs`), and the statements that drive one leaf each of
//! such pairs, and of what is invalid (`drive`; FIRRTL spec, "Connects", "Partial Connects", "Invalidates"). A
//! `Target` has the leaves that a reference names.
#![tactic(auto)]

mod drive;
mod pairs;
mod target;

pub use drive::{drive_pairs, drive_zeros};
pub use pairs::{LeafPair, leaf_pairs, partial_leaf_pairs};
pub use target::Target;

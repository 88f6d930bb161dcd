//! The last connect: one term of the net for all statements that drive a leaf (FIRRTL spec, "Last Connect
//! Semantics", "Conditional Last Connect Semantics"). Here are definitions, and laws about them, each the contract of
//! a function that does nothing: what a term over leaves becomes (`lowered_laws`), what drives a leaf
//! (`driver_laws`), and what gives each leaf of a module its value (`role_laws`).
#![tactic(auto)]

mod driver_laws;
mod lowered_laws;
mod role_laws;

pub use driver_laws::{driver_clocks, driver_is_worth, driver_reads};
pub use lowered_laws::{lowered_clocks, lowered_has_type, lowered_is_worth, lowered_reads};
pub use role_laws::{roles_are_worth, roles_read_the_same};

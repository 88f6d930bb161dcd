//! What faults of loops (E28) and of asynchronous inits (E27) are in whole designs, with instances: what definitions
//! over numbered leaves say of them is what those by paths say (FIRRTL spec, "Instances", "Registers", "Last Connect
//! Semantics"). Each law is the contract of a function that does nothing.
#![tactic(auto)]

mod loop_laws;

pub use loop_laws::{inits_stand_by_path, loops_stand_by_path};

//! Which Resets of a circuit are asynchronous: a mark for each leaf, by its number (`ResetMap`; FIRRTL spec, "Reset
//! Inference"). fir_infer_resets finds them.
#![tactic(auto)]

mod reset_map;

pub use reset_map::ResetMap;

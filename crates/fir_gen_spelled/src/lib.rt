//! The text of the circuit `Gen` spells its tree, whatever its size.
#![tactic(auto)]

mod laws;

pub use laws::gen_is_spelled;

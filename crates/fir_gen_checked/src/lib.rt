//! No fault of names, types, resets, widths or cost stands in the circuit `Gen`.
#![tactic(auto)]

mod laws;

pub use laws::gen_is_checked;

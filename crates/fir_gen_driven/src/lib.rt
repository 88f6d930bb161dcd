//! No fault of drivers, clocks, inits or loops stands in the circuit `Gen`, and what its source has.
#![tactic(auto)]

mod laws;

pub use laws::{gen_has_source, gen_is_driven};

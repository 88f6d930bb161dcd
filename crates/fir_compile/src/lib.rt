//! From the text of a circuit to what is written of it. `passes` reads as the list of the passes: `compile` ends in
//! the net of the circuit, folded and without dead logic, and an order of its leaves and nodes (`compiled`), `verilog_of` in
//! the bytes of its Verilog, `net_of` in what a simulation runs, `counts_of` in the line of what the circuit has. The last
//! two passes that look for faults and their stages stand here: that to the flat net of a circuit (`flat`), and to an
//! order of that (`ordered`). What is said of them all stands in fir_outcome.
#![tactic(auto)]

mod compiled;
mod counted;
mod flat;
mod ordered;
mod passes;
mod told;

pub use compiled::Compiled;
pub use passes::{compile, counts_of, net_of, verilog_of};

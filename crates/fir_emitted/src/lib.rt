//! What is emitted of a circuit prints on a trace what the circuit prints: the tree of the emitted text has the
//! circuit's shape of traces, and the lines of its run over what is said of a trace are the lines of the circuit.
#![tactic(auto)]

mod laws;

pub use laws::emitted_prints_the_same;

//! The circuit `Gen` with a given number of registers, as a text (`gen_circuit`): a circuit of any size for tests of the
//! whole compiler. What its text is stands in specs/ (GenText), and the tree that it spells in specs/working (GenTree).
#![tactic(auto)]

mod circuit;

pub use circuit::gen_circuit;

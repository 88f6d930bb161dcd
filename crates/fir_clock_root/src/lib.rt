//! The clock of a clock leaf, for callers that ask for one leaf: in comes a flat net, out comes the number of the
//! clock input at which the drivers of the leaf end, or none. What a root is stands in specs/ (`ClockRoots`); in all
//! settled values of the net it is the leaf's clock (`laws`).
#![tactic(auto)]

pub mod laws;
mod root;
mod steps;

pub use root::clock_root;

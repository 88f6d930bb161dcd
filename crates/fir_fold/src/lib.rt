//! Folding. In comes a net with its order; out comes one that allows the same at every tick, in which no operator has
//! literals alone as operands and no mux a literal condition (`fold`). A leaf that a wire only stands for is read in the
//! wire's place, and of equal nodes one is left. The rules by which nodes are simplified stand in fir_fold_rules.
//!
//! The leaves and nodes are taken in the net's order (`walk`). What is read in the place of each is kept by its number
//! (`stands`), and each node reads what stands for its operands before it is simplified (`node_reads`). At the end all
//! that leaves and arrays read is written anew (`role_reads`, `array_reads`).
#![tactic(auto)]

mod array_reads;
mod folding;
mod listed;
mod node_reads;
mod role_reads;
mod stands;
mod walk;

pub use folding::fold;

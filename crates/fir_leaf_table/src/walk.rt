//! How far the walk over the declarations of a module has come.

use fir_ground::Driver;
use fir_leaf_circuit::{Leaf, LeafArray, MemoryClocks};

/// What the walk has still to read, and what it has made.
#[derive(Drop)]
pub struct Walk<'a> {
    /// How many declarations are passed.
    pub declared: usize,
    /// What gives those that come their values.
    pub drivers: &'a [Driver],
    /// The place behind the last node, where zeros stand.
    pub no_node: usize,
    pub leaves: Vec<Leaf>,
    pub arrays: Vec<LeafArray>,
    pub memories: Vec<MemoryClocks>,
}

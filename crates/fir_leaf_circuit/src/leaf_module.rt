//! A module over its ground leaves.

use crate::array::LeafArray;
use crate::leaf::Leaf;
use fir_leaf::{LeafStmt, Node};

/// A module of a circuit.
#[derive(Drop)]
pub struct LeafModule {
    /// How many leaves its ports have, which stand in front.
    pub port_leaves: usize,
    /// In the order of the declarations and of the leaves of their types.
    pub leaves: Vec<Leaf>,
    pub arrays: Vec<LeafArray>,
    pub memories: Vec<MemoryClocks>,
    /// The terms of its expressions, each behind those that it names.
    pub nodes: Vec<Node>,
    pub body: Vec<LeafStmt>,
}

/// A memory: how many are declared before it, and the clock leaves of its ports in their order.
#[derive(Drop)]
pub struct MemoryClocks {
    pub declaration: usize,
    pub port_clocks: Vec<usize>,
}

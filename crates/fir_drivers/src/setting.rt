//! What the walk over statements reads.

use fir_bits::NumTy;
use fir_leaf::Node;
use fir_merge::Bound;

/// The leaves and the nodes of a module.
#[derive(Drop)]
pub struct Setting<'a> {
    /// The type of each leaf, and how many whens stand round its declaration.
    pub types: &'a [NumTy],
    pub depths: &'a [usize],
    pub nodes: &'a [Node],
    /// Where the value of each node is; of an index that of its expression.
    pub bounds: &'a [Bound],
    /// Where the zero of no bits is.
    pub nothing: &'a Bound,
}

//! The flat net of a circuit.

use crate::array::Array;
use crate::leaf::Leaf;
use crate::node::Node;
use fir_ast::LeafId;
use fir_base::{Name, Seq};

/// A net: the circuit's name; the leaves, which are the ports in their order and then all others; the nodes,
/// each behind the nodes that it reads; the words of the state in their order, which are the registers and
/// pipes that have bits; and the arrays, with the order in which the state has them behind these words: those that have
/// bits, by their numbers. What drives a leaf may stand anywhere.
pub struct FlatNet {
    pub name: Name,
    pub leaves: Seq<Leaf>,
    pub nodes: Seq<Node>,
    pub state: Seq<LeafId>,
    pub arrays: Seq<Array>,
    pub array_order: Seq<usize>,
}

// Not derived, so that a drop is a call, which is proved once.
impl Drop for FlatNet {
    fn drop(self) {
        let FlatNet {
            name: _,
            leaves: _,
            nodes: _,
            state: _,
            arrays: _,
            array_order: _,
        } = self;
    }
}

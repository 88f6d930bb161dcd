//! Where the leaves, the nodes and the arrays of a module stand in the net of the whole design: all of one kind by one
//! offset.

ghost use Rattle.std.specs.Prelude.{◌≡◌};
ghost use Rattle.fir_flatten.specs.working.MovedNets.{array_moved, leaf_moved, offsets_of, read_moved, saturated};

use fir_ast::{LeafId, NodeId};
use fir_elaborate::ModuleCopy;
use fir_net::Read;

/// What is added to the numbers of a module. Sums that go past all numbers, which no leaf and no node has, stay at the
/// greatest one.
#[derive(Clone, Copy)]
pub struct Offsets {
    /// How many leaves the ports have.
    pub ports: usize,
    /// Where these begin, and where the other leaves do.
    pub first: usize,
    pub own: usize,
    /// Where the nodes begin.
    pub nodes: usize,
    /// Where the arrays begin.
    pub arrays: usize,
}

impl Offsets {
    /// Those of a copy of a module whose ports have so many leaves, with its nodes from a number on.
    pub fn new(copy: &ModuleCopy, ports: usize, nodes: usize) -> Offsets
        ensures { result ≡ offsets_of copy.now ports nodes }
    {
        Offsets {
            ports,
            first: copy.first,
            own: copy.own,
            nodes,
            arrays: copy.array,
        }
    }

    /// The number of an array.
    pub fn array(&self, array: usize) -> usize
        ensures { result ≡ array_moved self.now array }
    {
        self.arrays.saturating_add(array)
    }

    /// The number of a leaf.
    pub fn leaf(&self, leaf: usize) -> usize
        ensures { result ≡ leaf_moved self.now leaf }
    {
        if leaf < self.ports {
            self.first.saturating_add(leaf)
        } else {
            self.own.saturating_add(leaf - self.ports)
        }
    }

    /// What is read.
    pub fn read(&self, read: Read) -> Read
        ensures { result ≡ read_moved self.now read }
    {
        match read {
            Read::Leaf(leaf) => Read::Leaf(LeafId::new(self.leaf(leaf.number()))),
            Read::Node(node) => Read::Node(NodeId::new(self.nodes.saturating_add(node.number()))),
        }
    }
}

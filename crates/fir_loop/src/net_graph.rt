//! A net as a graph. Its nodes are the first vertices, in the order of their numbers, and its leaves stand
//! behind them.

ghost use Rattle.std.specs.Prelude.{◌≡◌, ℕ, ◌<◌, IfOk, Some, length, map, slice_get};
ghost use Rattle.fir_net.specs.working.IsNet.{IsNet};
ghost use Rattle.fir_loop.specs.working.Numbered.{vertex_of, read_of, size_of, targets_of};

use crate::vertex::read_at;
use fir_ast::{LeafId, NodeId};
use fir_base::MemoryOut;
use fir_graph::Graph;
use fir_net::{FlatNet, Read};
use std::alloc::Global;

/// A net in which all hang on leaves and nodes of its own.
#[derive(Drop)]
pub struct NetGraph<'a> {
    net: &'a FlatNet,
    /// How many nodes there are.
    nodes: usize,
    /// How many nodes and leaves there are.
    size: usize,
    ghost counted: { nodes ≡ length net.now.nodes },
    ghost sized: { size ≡ size_of net.now },
    ghost within: { (v place t : ℕ) → slice_get (targets_of net.now v) place ≡ Some t → t < size_of net.now },
}

impl<'a> NetGraph<'a> {
    pub fn new(net: &'a FlatNet) -> NetGraph<'a>
        requires { IsNet net.now }
        ensures { result.net.now ≡ net.now }
    {
        let nodes = net.nodes.as_slice().len();
        NetGraph {
            net,
            nodes,
            size: nodes + net.leaves.as_slice().len(),
        }
    }

    /// The leaves and nodes that the vertices are.
    pub fn reads(&self, alloc: Global, vertices: &[usize]) -> Result<Vec<Read>, MemoryOut>
        ensures { IfOk result (λ v. v.items ≡ map (read_of self.now.net.now) vertices.now) }
    {
        let mut reads = Vec::new(alloc);
        for vertex in vertices {
            reads.push(self.read(*vertex))?;
        }
        Ok(reads)
    }

    fn read(&self, vertex: usize) -> Read
        ensures { result ≡ read_of self.now.net.now vertex }
    {
        if vertex < self.nodes {
            Read::Node(NodeId::new(vertex))
        } else {
            Read::Leaf(LeafId::new(vertex - self.nodes))
        }
    }

    fn vertex(&self, read: &Read) -> usize
        requires { vertex_of self.now.net.now read.now < size_of self.now.net.now }
        ensures { result ≡ vertex_of self.now.net.now read.now }
    {
        match read {
            Read::Leaf(leaf) => self.nodes + leaf.number(),
            Read::Node(node) => node.number(),
        }
    }
}

impl Graph for NetGraph<'_> {
    ghost size = { λ g. size_of g.net.now };

    ghost targets = { λ g. targets_of g.net.now };

    fn size(&self) -> usize {
        self.size
    }

    fn target(&self, vertex: usize, place: usize) -> Option<usize> {
        match read_at(self.net, &self.read(vertex), place) {
            Some(read) => Some(self.vertex(&read)),
            None => None,
        }
    }

    /// Leaves alone stand in a closed walk.
    fn counts(&self, vertex: usize) -> bool {
        vertex >= self.nodes
    }
}

//! Leaves and nodes of a net, behind which others are put.

ghost use Rattle.std.specs.Prelude.{◌≡◌, [], IfOk};
ghost use Rattle.fir_mem.specs.working.Built.{Puts, bit, next_leaf, next_node, put_leaf, put_node};

use fir_ast::{LeafId, NodeId};
use fir_base::{MemoryOut, Seq};
use fir_bits::PrimOp;
use fir_net::{Leaf, Node, Operation, Read, Reads};
use std::alloc::Global;
use std::marker::Model;

/// The leaves and the nodes of a net, with those that were put behind them, and the entries of its order for these.
#[derive(Drop)]
pub struct Lowered {
    pub leaves: Vec<Leaf>,
    pub nodes: Vec<Node>,
    pub entries: Vec<Read>,
}

impl Model for Lowered {
    ghost use Rattle.fir_mem.specs.working.Built.{Built};

    ghost Value = { Built };

    ghost view = { λ l. record { leaves = l.leaves.items; nodes = l.nodes.items; entries = l.entries.items } };
}

impl Lowered {
    pub fn new(alloc: Global, leaves: Vec<Leaf>, nodes: Vec<Node>) -> Lowered
        ensures { result ≡ record { leaves = leaves.items; nodes = nodes.items; entries = [] } }
    {
        Lowered {
            leaves,
            nodes,
            entries: Vec::new(alloc),
        }
    }

    /// Puts a leaf behind the others.
    pub fn put_leaf(&mut self, leaf: Leaf) -> Result<Read, MemoryOut>
        ensures { IfOk result (λ r. Puts self.new r (put_leaf self.old leaf) (next_leaf self.old)) }
    {
        let number = self.leaves.len();
        self.leaves.push(leaf)?;
        self.entries.push(Read::Leaf(LeafId::new(number)))?;
        Ok(Read::Leaf(LeafId::new(number)))
    }

    /// Puts a node behind the others.
    pub fn put(&mut self, node: Node) -> Result<Read, MemoryOut>
        ensures { IfOk result (λ r. Puts self.new r (put_node self.old node) (next_node self.old)) }
    {
        let number = self.nodes.len();
        self.nodes.push(node)?;
        self.entries.push(Read::Node(NodeId::new(number)))?;
        Ok(Read::Node(NodeId::new(number)))
    }

    /// Puts an operation of one bit.
    pub fn put_bit(
        &mut self,
        alloc: Global,
        op: PrimOp,
        first: Read,
        second: Read,
    ) -> Result<Read, MemoryOut>
        ensures { IfOk result (λ r. Puts self.new r (put_node self.old (bit op first second)) (next_node self.old)) }
    {
        let mut reads = Reads::new(alloc);
        reads.push(first)?;
        reads.push(second)?;
        self.put(Node::Operation(Operation {
            op,
            reads,
            integers: Seq::from_vec(Vec::new(alloc)),
            signed: false,
            width: 1,
        }))
    }
}

//! Which leaves and nodes of a net are kept, and their new numbers.

ghost use Rattle.std.specs.Prelude.{◌≡◌, IfOk};
ghost use Rattle.fir_drop_dead.specs.working.Marks.{has};
ghost use Rattle.fir_drop_dead.specs.working.Moved.{moved_leaf_number, moved_read};

use crate::marks::Marks;
use crate::numbering::Numbering;
use fir_ast::{LeafId, NodeId};
use fir_base::MemoryOut;
use fir_net::Read;
use std::alloc::Global;
use std::marker::Model;

/// The leaves and nodes of a net that are kept.
#[derive(Drop)]
pub struct Kept {
    leaves: Numbering,
    nodes: Numbering,
}

impl Model for Kept {
    ghost use Rattle.fir_drop_dead.specs.working.Marks.{Marked};

    ghost Value = { Marked };

    ghost view = { λ k. record { leaves = k.leaves; nodes = k.nodes } };
}

impl Kept {
    /// Those that are marked.
    pub fn new(alloc: Global, marks: Marks) -> Result<Kept, MemoryOut>
        ensures { IfOk result (λ k. k ≡ marks) }
    {
        let Marks { leaves, nodes } = marks;
        let leaves = Numbering::new(alloc, leaves)?;
        let nodes = Numbering::new(alloc, nodes)?;
        Ok(Kept { leaves, nodes })
    }

    /// Which leaves are kept.
    pub fn leaf_marks(&self) -> &[bool]
        ensures { result.now ≡ self.now.leaves }
    {
        self.leaves.marks()
    }

    /// Which nodes are kept.
    pub fn node_marks(&self) -> &[bool]
        ensures { result.now ≡ self.now.nodes }
    {
        self.nodes.marks()
    }

    /// Whether a leaf or node is kept.
    pub fn has(&self, read: Read) -> bool
        ensures { result ≡ has self.now read }
    {
        match read {
            Read::Leaf(leaf) => self.leaves.has(leaf.number()),
            Read::Node(node) => self.nodes.has(node.number()),
        }
    }

    /// The new number of a leaf that is kept.
    pub fn leaf(&self, leaf: LeafId) -> LeafId
        ensures { result ≡ moved_leaf_number self.now leaf }
    {
        LeafId::new(self.leaves.place(leaf.number()))
    }

    /// A leaf or node that is kept, by its new number.
    pub fn read(&self, read: Read) -> Read
        ensures { result ≡ moved_read self.now read }
    {
        match read {
            Read::Leaf(leaf) => Read::Leaf(self.leaf(leaf)),
            Read::Node(node) => Read::Node(NodeId::new(self.nodes.place(node.number()))),
        }
    }
}

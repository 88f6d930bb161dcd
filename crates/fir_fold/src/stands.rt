//! What is read in the place of the leaves and nodes of a net.

ghost use Rattle.std.specs.Prelude.{◌≡◌, ◌<◌, IfOk, length, slice_set};
ghost use Rattle.fir_fold.specs.working.Standing.{stands_for};

use fir_ast::{LeafId, NodeId};
use fir_base::MemoryOut;
use fir_net::Read;
use std::alloc::Global;
use std::marker::Model;

/// By the numbers of the leaves and of the nodes of a net, what is read in their place.
#[derive(Drop)]
pub struct Stands {
    leaves: Vec<Read>,
    nodes: Vec<Read>,
}

impl Model for Stands {
    ghost use Rattle.fir_fold.specs.working.Standing.{Standing};

    ghost Value = { Standing };

    ghost view = { λ s. record { leaves = s.leaves.items; nodes = s.nodes.items } };
}

impl Stands {
    /// For so many leaves and nodes, of which none is read yet.
    pub fn new(alloc: Global, leaves: usize, nodes: usize) -> Result<Stands, MemoryOut>
        ensures { IfOk result (λ s. (length s.leaves ≡ leaves) × (length s.nodes ≡ nodes)) }
    {
        Ok(Stands {
            leaves: unread(alloc, leaves)?,
            nodes: unread(alloc, nodes)?,
        })
    }

    /// What is read in the place of a leaf or a node.
    pub fn read(&self, read: Read) -> Read
        ensures { result ≡ stands_for self.now read }
    {
        match read {
            Read::Leaf(leaf) => match self.leaves.get(leaf.number()) {
                Some(stands) => *stands,
                None => read,
            },
            Read::Node(node) => match self.nodes.get(node.number()) {
                Some(stands) => *stands,
                None => read,
            },
        }
    }

    /// Lets a read stand for a leaf.
    pub fn set_leaf(&mut self, leaf: LeafId, read: Read)
        requires { leaf < length self.old.leaves }
        ensures { self.new ≡ record self.old { leaves = slice_set self.old.leaves leaf read } }
    {
        self.leaves[leaf.number()] = read;
    }

    /// Lets a read stand for a node.
    pub fn set_node(&mut self, node: NodeId, read: Read)
        requires { node < length self.old.nodes }
        ensures { self.new ≡ record self.old { nodes = slice_set self.old.nodes node read } }
    {
        self.nodes[node.number()] = read;
    }
}

/// So many reads, which nothing has set yet.
fn unread(alloc: Global, count: usize) -> Result<Vec<Read>, MemoryOut>
    ensures { IfOk result (λ v. length v.items ≡ count) }
{
    let reads = vec![in alloc; Read::Leaf(LeafId::new(0)); count]?;
    Ok(reads)
}

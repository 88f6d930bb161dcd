//! Marks of leaves and nodes.

ghost use Rattle.std.specs.Prelude.{◌≡◌, IfOk};
ghost use Rattle.fir_drop_dead.specs.working.Marks.{has, mark_at, marked, marked_all, no_marks, set_mark};

use fir_base::MemoryOut;
use fir_net::Read;
use std::alloc::Global;
use std::marker::Model;

/// Which leaves and nodes of a net are marked.
#[derive(Drop)]
pub struct Marks {
    pub leaves: Vec<bool>,
    pub nodes: Vec<bool>,
}

impl Model for Marks {
    ghost use Rattle.fir_drop_dead.specs.working.Marks.{Marked};

    ghost Value = { Marked };

    ghost view = { λ m. record { leaves = m.leaves.items; nodes = m.nodes.items } };
}

impl Marks {
    /// No marks of so many leaves and nodes.
    pub fn none(alloc: Global, leaves: usize, nodes: usize) -> Result<Marks, MemoryOut>
        ensures { IfOk result (λ m. m ≡ no_marks leaves nodes) }
    {
        let leaves = vec![in alloc; false; leaves]?;
        let nodes = vec![in alloc; false; nodes]?;
        Ok(Marks { leaves, nodes })
    }

    /// Whether the leaf or node is marked.
    pub fn has(&self, read: Read) -> bool
        ensures { result ≡ has self.now read }
    {
        match read {
            Read::Leaf(leaf) => mark_at(self.leaves.as_slice(), leaf.number()),
            Read::Node(node) => mark_at(self.nodes.as_slice(), node.number()),
        }
    }

    /// Marks a leaf or node.
    pub fn mark(&mut self, read: Read)
        ensures { self.new ≡ marked read self.old }
    {
        match read {
            Read::Leaf(leaf) => set_mark(&mut self.leaves, leaf.number()),
            Read::Node(node) => set_mark(&mut self.nodes, node.number()),
        }
    }

    /// Marks leaves and nodes.
    pub fn mark_all(&mut self, reads: &[Read])
        ensures { self.new ≡ marked_all reads.now self.old }
    {
        for read in reads {
            self.mark(*read);
        }
    }
}

/// The mark of that number.
pub fn mark_at(marks: &[bool], number: usize) -> bool
    ensures { result ≡ mark_at marks.now number }
{
    match marks.get(number) {
        Some(mark) => *mark,
        None => false,
    }
}

fn set_mark(marks: &mut [bool], number: usize)
    ensures { marks.new ≡ set_mark number marks.old }
{
    if number < marks.len() {
        marks[number] = true;
    }
}

//! What a search for asynchronous resets has reached, and where it begins.

ghost use Rattle.std.specs.Prelude.{◌<◌, IfOk, OnOk, length, vec_len};
ghost use Rattle.fir_infer_resets.specs.working.Reaching.{Enters, Roots};

use crate::graph::Kind;
use fir_base::MemoryOut;
use std::alloc::Global;

/// What is reached, and the place in the queue of the entry that it was reached from.
#[derive(Clone, Copy)]
pub struct Entry {
    pub node: usize,
    pub from: usize,
}

/// What is reached so far: a mark for each number, and a queue in which each that is marked stands
/// once.
#[derive(Drop)]
pub struct Reached {
    pub marks: Vec<bool>,
    pub queue: Vec<Entry>,
}

impl Reached {
    /// All AsyncResets.
    pub fn roots(alloc: Global, kinds: &[Kind]) -> Result<Reached, MemoryOut>
        ensures { IfOk result (λ r. Roots kinds.now r (length kinds.now)) }
    {
        let mut reached = Reached {
            marks: vec![in alloc; false; kinds.len()]?,
            queue: Vec::new(alloc),
        };
        for node in 0..kinds.len() {
            match kinds[node] {
                Kind::Asynchronous => reached.enter(node, 0)?,
                _ => {}
            }
        }
        Ok(reached)
    }

    /// Marks what is reached from the entry at that place, and puts it behind.
    pub fn enter(&mut self, node: usize, from: usize) -> Result<(), MemoryOut>
        requires { node < vec_len self.old.marks }
        ensures { OnOk result (Enters self.old self.new node from) }
    {
        self.marks[node] = true;
        self.queue.push(Entry { node, from })?;
        Ok(())
    }
}

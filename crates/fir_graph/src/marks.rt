//! Marks on the vertices of a graph.

ghost use Rattle.std.specs.Prelude.{◌≡◌, ◌<◌, IfOk, Some, length, replicate, slice_get, slice_set};

use fir_base::MemoryOut;
use std::alloc::Global;
use std::marker::Model;

/// How far a search has come at a vertex.
#[derive(Clone, Copy)]
pub enum Mark {
    New,
    /// All its targets before this place are done.
    Open(usize),
    Done,
}

/// A mark for each vertex.
#[derive(Drop)]
pub struct Marks {
    marks: Vec<Mark>,
}

impl Model for Marks {
    ghost use Rattle.std.specs.Prelude.{List};
    ghost use Rattle.fir_graph.specs.declared.marks.Mark.{Mark};

    ghost Value = { List Mark };

    ghost view = { λ m. m.marks.items };
}

impl Marks {
    /// So many, all new.
    pub fn new(alloc: Global, size: usize) -> Result<Marks, MemoryOut>
        ensures { IfOk result (λ m. m ≡ replicate size Mark.New) }
    {
        Ok(Marks {
            marks: vec![in alloc; Mark::New; size]?,
        })
    }

    /// The mark of that vertex.
    pub fn get(&self, vertex: usize) -> Mark
        requires { vertex < length self.now }
        ensures { slice_get self.now vertex ≡ Some result }
    {
        self.marks[vertex]
    }

    /// Gives that vertex another mark.
    pub fn set(&mut self, vertex: usize, mark: Mark)
        requires { vertex < length self.old }
        ensures { self.new ≡ slice_set self.old vertex mark }
    {
        self.marks[vertex] = mark;
    }
}

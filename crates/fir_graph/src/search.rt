//! A search by depth from vertices to their targets, without recursion.

ghost use Rattle.std.specs.Prelude.{◌≡◌, ℕ, ◌<◌, IfOk, OnOk, Some, length, drop, slice_get};
ghost use Rattle.fir_graph.specs.working.IsCircle.{IsCircle, IfFault};
ghost use Rattle.fir_graph.specs.working.Searched.{Knows, IsIdle, IsLast, Entered, Finished, Stepped, Reached};

use crate::graph::Graph;
use crate::marks::{Mark, Marks};
use fir_base::{MemoryOut, Refused, Seq};
use std::alloc::Global;

/// A search of the vertices of a graph.
#[derive(Drop)]
pub struct Search {
    marks: Marks,
    /// Those that are open, each of which has the next as a target.
    path: Vec<usize>,
    /// Those that are done, each behind all its targets.
    order: Vec<usize>,
}

impl Search {
    /// A search that has met nothing yet.
    pub fn new<G: Graph>(alloc: Global, graph: &G) -> Result<Search, MemoryOut>
        ensures { IfOk result (IsIdle (G.size graph.now) (G.targets graph.now)) }
    {
        Ok(Search {
            marks: Marks::new(alloc, graph.size())?,
            path: Vec::new(alloc),
            order: Vec::new(alloc),
        })
    }

    /// Those that are done, in the order in which they were.
    pub fn into_order(self) -> Vec<usize>
        ensures { result.items ≡ self.order.items }
    {
        let Search {
            marks: _,
            path: _,
            order,
        } = self;
        order
    }

    /// Finishes the vertex, and before it all its targets; or finds a circle.
    pub fn reach<G: Graph>(
        &mut self,
        alloc: Global,
        graph: &G,
        root: usize,
    ) -> Result<(), Refused<Seq<usize>>>
        requires idle { IsIdle (G.size graph.now) (G.targets graph.now) self.old }
        requires root { root < G.size graph.now }
        ensures ok { OnOk result (Reached (G.size graph.now) (G.targets graph.now) self.old self.new root) }
        ensures fault { IfFault result (IsCircle (G.targets graph.now)) }
    {
        let Mark::New = self.marks.get(root) else {
            return Ok(());
        };
        self.enter(root)?;
        while let Some(top) = self.path.last() {
            let top = *top;
            self.step(alloc, graph, top)?;
        }
        Ok(())
    }

    /// One step at the last of the path.
    fn step<G: Graph>(
        &mut self,
        alloc: Global,
        graph: &G,
        top: usize,
    ) -> Result<(), Refused<Seq<usize>>>
        requires knows { Knows (G.size graph.now) (G.targets graph.now) self.old }
        requires last { IsLast self.old.path.items top }
        ensures ok { OnOk result (Stepped (G.size graph.now) (G.targets graph.now) self.old self.new) }
        ensures fault { IfFault result (IsCircle (G.targets graph.now)) }
    {
        let Mark::Open(place) = self.marks.get(top) else {
            unreachable!()
        };
        match graph.target(top, place) {
            None => Ok(self.finish(top)?),
            Some(target) => match self.marks.get(target) {
                Mark::New => Ok(self.enter(target)?),
                Mark::Open(_) => Err(Refused::Fault(self.circle_from(alloc, target)?)),
                Mark::Done => {
                    self.marks.set(top, Mark::Open(place + 1));
                    Ok(())
                }
            },
        }
    }

    /// Opens one that is new.
    fn enter(&mut self, vertex: usize) -> Result<(), MemoryOut>
        requires { vertex < length self.old.marks }
        ensures { OnOk result (Entered self.old self.new vertex) }
    {
        self.marks.set(vertex, Mark::Open(0));
        self.path.push(vertex)?;
        Ok(())
    }

    /// Moves the last of the path to the order.
    fn finish(&mut self, top: usize) -> Result<(), MemoryOut>
        requires marked { top < length self.old.marks }
        requires last { IsLast self.old.path.items top }
        ensures { OnOk result (Finished self.old self.new top) }
    {
        self.marks.set(top, Mark::Done);
        let _ = self.path.pop();
        self.order.push(top)?;
        Ok(())
    }

    /// The open ones from that one on.
    fn circle_from(&self, alloc: Global, vertex: usize) -> Result<Seq<usize>, MemoryOut>
        requires { (i : ℕ) × (slice_get self.now.path.items i ≡ Some vertex) }
        ensures { IfOk result (λ c. (i : ℕ) × (slice_get self.now.path.items i ≡ Some vertex) × (c ≡ drop i self.now.path.items)) }
    {
        let start = place_of(self.path.as_slice(), vertex);
        Ok(Seq::from_vec(Vec::from_slice(alloc, &self.path[start..])?))
    }
}

/// The first place of the vertex.
fn place_of(path: &[usize], vertex: usize) -> usize
    requires { (i : ℕ) × (slice_get path.now i ≡ Some vertex) }
    ensures { slice_get path.now result ≡ Some vertex }
{
    for (i, met) in path.iter().enumerate() {
        if *met == vertex {
            return i;
        }
    }
    unreachable!()
}

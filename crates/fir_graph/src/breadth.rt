//! A search by breadth for a circle with few vertices that count. What it finds is judged by `is_circle`, so
//! that nothing has to be known of it; that the circle is a shortest one is tested.

ghost use Rattle.std.specs.Prelude.{IfOk};
ghost use Rattle.fir_graph.specs.working.IsCircle.{IsCircle};

use crate::circle_check::is_circle;
use crate::graph::Graph;
use fir_base::{MemoryOut, Seq};
use std::alloc::Global;
use std::mem;

/// A circle through the first vertex of the circle that counts, and with as few that count as one through it
/// can have. It takes time in proportion to the graph.
pub fn shortest<G: Graph>(
    alloc: Global,
    graph: &G,
    circle: Seq<usize>,
) -> Result<Seq<usize>, MemoryOut>
    requires { IsCircle (G.targets graph.now) circle }
    ensures { IfOk result (IsCircle (G.targets graph.now)) }
{
    let Some(first) = first_that_counts(graph, circle.as_slice()) else {
        return Ok(circle);
    };
    let found = circle_through(alloc, graph, first)?;
    if is_circle(alloc, graph, found.as_slice())? {
        return Ok(found);
    }
    Ok(circle)
}

fn first_that_counts<G: Graph>(graph: &G, circle: &[usize]) -> Option<usize> {
    for vertex in circle {
        if graph.counts(*vertex) {
            return Some(*vertex);
        }
    }
    None
}

/// A shortest circle from the vertex on; nothing, where there is none.
fn circle_through<G: Graph>(
    alloc: Global,
    graph: &G,
    first: usize,
) -> Result<Seq<usize>, MemoryOut> {
    let mut breadth = Breadth::new(alloc, graph.size())?;
    breadth.near.push(first)?;
    for _ in 0..graph.size() {
        let Some(vertex) = breadth.next() else {
            break;
        };
        if breadth.closes(graph, vertex, first)? {
            return breadth.way_to(alloc, vertex);
        }
    }
    Ok(Seq::from_vec(Vec::new(alloc)))
}

/// How far the search has come.
#[derive(Drop)]
struct Breadth {
    /// For each vertex that was met, the one by whose target it was.
    from: Vec<Option<usize>>,
    /// Those to be looked at that stand behind as many that count as the last one.
    near: Vec<usize>,
    /// Those that stand behind one more.
    far: Vec<usize>,
}

impl Breadth {
    fn new(alloc: Global, size: usize) -> Result<Breadth, MemoryOut> {
        Ok(Breadth {
            from: vec![in alloc; None; size]?,
            near: Vec::new(alloc),
            far: Vec::new(alloc),
        })
    }

    /// The next to be looked at.
    fn next(&mut self) -> Option<usize> {
        if self.near.is_empty() {
            mem::swap(&mut self.near, &mut self.far);
        }
        self.near.pop()
    }

    /// Whether it has the first as a target. Else meets all its targets.
    fn closes<G: Graph>(
        &mut self,
        graph: &G,
        vertex: usize,
        first: usize,
    ) -> Result<bool, MemoryOut> {
        let mut place = 0;
        while let Some(target) = graph.target(vertex, place) {
            if target == first {
                return Ok(true);
            }
            self.meet(target, vertex, graph.counts(target))?;
            place += 1;
        }
        Ok(false)
    }

    /// Takes one that is new among those to be looked at, later if it counts.
    fn meet(&mut self, vertex: usize, from: usize, counts: bool) -> Result<(), MemoryOut> {
        if let Some(entry) = self.from.get_mut(vertex)
            && entry.is_none()
        {
            *entry = Some(from);
            if counts {
                self.far.push(vertex)?;
            } else {
                self.near.push(vertex)?;
            }
        }
        Ok(())
    }

    /// The way by which it was met, from the first on.
    fn way_to(&self, alloc: Global, vertex: usize) -> Result<Seq<usize>, MemoryOut> {
        let mut way = Vec::new(alloc);
        let mut next = Some(vertex);
        for _ in 0..self.from.len() {
            let Some(vertex) = next else {
                break;
            };
            next = self.from.get(vertex).copied().flatten();
            way.push(vertex)?;
        }
        way.reverse();
        Ok(Seq::from_vec(way))
    }
}

//! Whether vertices are a circle.

ghost use Rattle.std.specs.Prelude.{IfOk, IsTrue};
ghost use Rattle.fir_base.specs.Lists.{Distinct};
ghost use Rattle.fir_graph.specs.working.HasTarget.{HasTarget};
ghost use Rattle.fir_graph.specs.working.IsCircle.{IsCircle, Turns};

use crate::graph::Graph;
use fir_base::MemoryOut;
use std::alloc::Global;

/// Whether each of them has the next as a target, the last the first, and none stands twice.
pub fn is_circle<G: Graph>(alloc: Global, graph: &G, circle: &[usize]) -> Result<bool, MemoryOut>
    ensures { IfOk result (λ b. IsTrue b → IsCircle (G.targets graph.now) circle.now) }
{
    if !turns(graph, circle) {
        return Ok(false);
    }
    are_distinct(alloc, graph.size(), circle)
}

fn turns<G: Graph>(graph: &G, circle: &[usize]) -> bool
    ensures { IsTrue result → Turns (G.targets graph.now) circle.now }
{
    let [first, rest @ ..] = circle else {
        return false;
    };
    let mut last = *first;
    for vertex in rest {
        if !has_target(graph, last, *vertex) {
            return false;
        }
        last = *vertex;
    }
    has_target(graph, last, *first)
}

fn has_target<G: Graph>(graph: &G, vertex: usize, wanted: usize) -> bool
    ensures { IsTrue result → HasTarget (G.targets graph.now) vertex wanted }
{
    let mut place = 0;
    while let Some(target) = graph.target(vertex, place) {
        if target == wanted {
            return true;
        }
        place += 1;
    }
    false
}

/// Whether all are below the size, and none stands twice.
fn are_distinct(alloc: Global, size: usize, circle: &[usize]) -> Result<bool, MemoryOut>
    ensures { IfOk result (λ b. IsTrue b → Distinct circle.now) }
{
    let mut met = vec![in alloc; false; size]?;
    for vertex in circle {
        if *vertex >= met.len() || met[*vertex] {
            return Ok(false);
        }
        met[*vertex] = true;
    }
    Ok(true)
}

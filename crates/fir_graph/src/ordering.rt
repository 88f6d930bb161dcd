//! The order of a graph's vertices, or a circle.

ghost use Rattle.std.specs.Prelude.{IfOk};
ghost use Rattle.fir_graph.specs.working.IsOrder.{IsOrder};
ghost use Rattle.fir_graph.specs.working.IsCircle.{IsCircle, IfFault};

use crate::breadth::shortest;
use crate::graph::Graph;
use crate::search::Search;
use fir_base::{Refused, Seq};
use std::alloc::Global;

/// The vertices in an order in which each stands behind its targets, and in the order of their numbers where
/// none has a target behind it; or a circle of vertices, a shortest one through its first vertex that counts.
/// It takes time in proportion to the graph, and no recursion.
pub fn order<G: Graph>(alloc: Global, graph: &G) -> Result<Vec<usize>, Refused<Seq<usize>>>
    ensures ok { IfOk result (λ v. IsOrder (G.size graph.now) (G.targets graph.now) v.items) }
    ensures fault { IfFault result (IsCircle (G.targets graph.now)) }
{
    match search(alloc, graph) {
        Ok(order) => Ok(order),
        Err(Refused::Fault(circle)) => Err(Refused::Fault(shortest(alloc, graph, circle)?)),
        Err(Refused::Memory) => Err(Refused::Memory),
    }
}

/// An order, or any circle.
fn search<G: Graph>(alloc: Global, graph: &G) -> Result<Vec<usize>, Refused<Seq<usize>>>
    ensures ok { IfOk result (λ v. IsOrder (G.size graph.now) (G.targets graph.now) v.items) }
    ensures fault { IfFault result (IsCircle (G.targets graph.now)) }
{
    let mut search = Search::new(alloc, graph)?;
    for vertex in 0..graph.size() {
        search.reach(alloc, graph, vertex)?;
    }
    Ok(search.into_order())
}

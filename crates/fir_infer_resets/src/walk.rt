//! The walk from a UInt back to an AsyncReset.

ghost use Rattle.std.specs.Prelude.{◌≡◌, IfOk, Some, slice_get};
ghost use Rattle.fir_infer_resets.specs.working.ResetGraphs.{IsGraph, IsResetWalk};
ghost use Rattle.fir_infer_resets.specs.working.Reaching.{Knows};
ghost use Rattle.fir_infer_resets.specs.working.Walking.{IsJoinedAt};

use crate::graph::Kind;
use crate::roots::Reached;
use fir_base::MemoryOut;
use std::alloc::Global;

/// Numbers of leaves and expressions, each joined to the next.
#[derive(Drop)]
pub struct Walk {
    pub nodes: Vec<usize>,
}

/// From a UInt to which the entry at that place is joined, by what each entry was reached from.
pub fn walk_back(
    alloc: Global,
    graph: &[Vec<usize>],
    kinds: &[Kind],
    reached: &Reached,
    unsigned: usize,
    place: usize,
) -> Result<Walk, MemoryOut>
    requires graph { IsGraph graph.now kinds.now }
    requires knows { Knows graph.now kinds.now reached.now }
    requires unsigned { slice_get kinds.now unsigned ≡ Some Kind.Unsigned }
    requires joined { IsJoinedAt graph.now reached.now.queue.items place unsigned }
    ensures { IfOk result (λ w. IsResetWalk graph.now kinds.now w.nodes.items) }
{
    let mut nodes = Vec::new(alloc);
    nodes.push(unsigned)?;
    let mut place = place;
    loop {
        let entry = reached.queue[place];
        nodes.push(entry.node)?;
        match kinds[entry.node] {
            Kind::Asynchronous => return Ok(Walk { nodes }),
            _ => place = entry.from,
        }
    }
}

//! The search for asynchronous resets, by breadth.

ghost use Rattle.std.specs.Prelude.{◌≡◌, ◌+◌, ◌<◌, IfOk, OnOk, vec_len};
ghost use Rattle.fir_pass.specs.working.Law.{IfFault};
ghost use Rattle.fir_infer_resets.specs.working.ResetGraphs.{IsFound, IsGraph, IsResetWalk};
ghost use Rattle.fir_infer_resets.specs.working.Reaching.{Searching};

use crate::graph::Kind;
use crate::roots::Reached;
use crate::walk::{Walk, walk_back};
use fir_base::Refused;
use std::alloc::Global;

/// Which Resets are asynchronous, by marks, with all AsyncResets marked, too; or a walk that joins a
/// UInt and an AsyncReset, a shortest one from that UInt (FIRRTL spec, "Reset Inference"). Each join
/// is to stand in the lists of both that it joins. It takes time in proportion to the lists.
pub fn find_resets(
    alloc: Global,
    graph: &[Vec<usize>],
    kinds: &[Kind],
) -> Result<Vec<bool>, Refused<Walk>>
    requires { IsGraph graph.now kinds.now }
    ensures ok { IfOk result (λ marks. IsFound graph.now kinds.now marks.items) }
    ensures fault { IfFault result (λ w. IsResetWalk graph.now kinds.now w.nodes.items) }
{
    let mut reached = Reached::roots(alloc, kinds)?;
    let mut place = 0;
    while place < reached.queue.len() {
        look_around(alloc, graph, kinds, &mut reached, place)?;
        place += 1;
    }
    Ok(reached.marks)
}

/// Reaches the Resets that the entry at that place is joined to, unless one of them is a UInt.
fn look_around(
    alloc: Global,
    graph: &[Vec<usize>],
    kinds: &[Kind],
    reached: &mut Reached,
    place: usize,
) -> Result<(), Refused<Walk>>
    requires graph { IsGraph graph.now kinds.now }
    requires searching { Searching graph.now kinds.now reached.old place }
    requires within { place < vec_len reached.old.queue }
    ensures ok { OnOk result (Searching graph.now kinds.now reached.new (place + 1)) }
    ensures fault { IfFault result (λ w. IsResetWalk graph.now kinds.now w.nodes.items) }
{
    let node = reached.queue[place].node;
    for next in graph[node].as_slice() {
        let next = *next;
        match kinds[next] {
            Kind::Unsigned => {
                let walk = walk_back(alloc, graph, kinds, reached, next, place)?;
                return Err(Refused::Fault(walk));
            }
            Kind::Reset => {
                if !reached.marks[next] {
                    reached.enter(next, place)?;
                }
            }
            _ => {}
        }
    }
    Ok(())
}

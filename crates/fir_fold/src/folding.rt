//! A net that is folded.

ghost use Rattle.std.specs.Prelude.{IfOk};
ghost use Rattle.fir_net.specs.working.IsNet.{IsNet};
ghost use Rattle.fir_net.specs.working.IsOrder.{IsOrder};
ghost use Rattle.fir_equivalence.specs.working.IsEquivalent.{IsEquivalent};
ghost use Rattle.fir_equivalence.specs.working.Rewrites.{Rewrites};
ghost use Rattle.fir_fold.specs.working.IsFolded.{IsFolded};

use crate::array_reads::arrays_anew;
use crate::listed::listed;
use crate::role_reads::leaves_anew;
use crate::walk::{Walk, walked};
use fir_base::{MemoryOut, Seq};
use fir_equivalence::laws::rewritten_is_equivalent;
use fir_loop::Order;
use fir_net::FlatNet;
use fir_net::laws::{nodes_have_their_types, nodes_have_their_values};
use std::alloc::Global;
use std::mem;

/// The net with its nodes simplified, and its order. Leaves keep their numbers. It takes time in proportion to the net,
/// and only memory can be wanting.
pub fn fold(alloc: Global, net: FlatNet, order: Order) -> Result<(FlatNet, Order), MemoryOut>
    requires whole { IsNet net }
    requires ordered { IsOrder net order }
    ensures equivalent { IfOk result (λ r. IsEquivalent net r.0) }
    ensures ordered { IfOk result (λ r. IsOrder r.0 r.1) }
    ensures folded { IfOk result (λ r. IsFolded r.0) }
{
    rewritten_is_equivalent();
    rewritten(alloc, net, order)
}

/// The net written anew.
fn rewritten(alloc: Global, net: FlatNet, order: Order) -> Result<(FlatNet, Order), MemoryOut>
    requires whole { IsNet net }
    requires ordered { IsOrder net order }
    ensures rewrites { IfOk result (λ r. Rewrites net r.0 (λ k. k)) }
    ensures ordered { IfOk result (λ r. IsOrder r.0 r.1) }
    ensures folded { IfOk result (λ r. IsFolded r.0) }
{
    nodes_have_their_values();
    nodes_have_their_types();
    let Walk {
        stands,
        nodes,
        entries,
    } = walked(alloc, &net, order.as_slice())?;
    let nodes = listed(alloc, nodes)?;
    let mut net = net;
    let leaves = mem::replace(&mut net.leaves, Seq::from_vec(Vec::new(alloc)));
    let arrays = mem::replace(&mut net.arrays, Seq::from_vec(Vec::new(alloc)));
    net.leaves = leaves_anew(leaves, &stands);
    net.nodes = Seq::from_vec(nodes);
    net.arrays = arrays_anew(alloc, arrays, &stands);
    Ok((net, Order::from_vec(entries)))
}

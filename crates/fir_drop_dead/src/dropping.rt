//! A net without dead logic.

ghost use Rattle.std.specs.Prelude.{IfOk};
ghost use Rattle.fir_net.specs.working.IsNet.{IsNet};
ghost use Rattle.fir_net.specs.working.IsOrder.{IsOrder};
ghost use Rattle.fir_equivalence.specs.working.IsEquivalent.{IsEquivalent};
ghost use Rattle.fir_drop_dead.specs.working.IsLive.{IsLive, KeepsState};
ghost use Rattle.fir_drop_dead.specs.working.Rewritten.{IsRewritten};

use crate::kept::Kept;
use crate::kept_net::{kept_net, kept_order};
use crate::needed::needed;
use fir_base::MemoryOut;
use fir_equivalence::laws::rewritten_is_equivalent;
use fir_loop::Order;
use fir_net::FlatNet;
use fir_net::laws::nodes_have_their_values;
use std::alloc::Global;

/// The net without the leaves and nodes that nothing needs, and its order: those that are left stand in the order in
/// which they stood. It takes time in proportion to the net, and no recursion; only memory can be wanting.
pub fn drop_dead(alloc: Global, net: FlatNet, order: Order) -> Result<(FlatNet, Order), MemoryOut>
    requires whole { IsNet net }
    requires ordered { IsOrder net order }
    ensures equivalent { IfOk result (λ r. IsEquivalent net r.0) }
    ensures ordered { IfOk result (λ r. IsOrder r.0 r.1) }
    ensures live { IfOk result (λ r. IsLive r.0) }
    ensures kept { IfOk result (λ r. KeepsState net r.0) }
{
    rewritten_is_equivalent();
    without_dead(alloc, net, order)
}

/// The same, where the net is written anew.
fn without_dead(alloc: Global, net: FlatNet, order: Order) -> Result<(FlatNet, Order), MemoryOut>
    requires whole { IsNet net }
    requires ordered { IsOrder net order }
    ensures rewritten { IfOk result (λ r. IsRewritten net r.0) }
    ensures ordered { IfOk result (λ r. IsOrder r.0 r.1) }
    ensures live { IfOk result (λ r. IsLive r.0) }
    ensures kept { IfOk result (λ r. KeepsState net r.0) }
{
    nodes_have_their_values();
    let marks = needed(alloc, &net, order.as_slice())?;
    let kept = Kept::new(alloc, marks)?;
    let order = kept_order(alloc, order.as_slice(), &kept)?;
    let net = kept_net(alloc, net, &kept)?;
    Ok((net, Order::from_vec(order)))
}

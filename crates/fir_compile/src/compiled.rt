//! A circuit that is compiled: its net once folded and without dead logic.

ghost use Rattle.std.specs.Prelude.{IfOk};
ghost use Rattle.fir_net.specs.working.IsNet.{IsNet};
ghost use Rattle.fir_net.specs.working.IsOrder.{IsOrder};
ghost use Rattle.fir_equivalence.specs.working.IsEquivalent.{IsEquivalent};

use crate::ordered::OrderedNet;
use fir_base::MemoryOut;
use fir_drop_dead::drop_dead;
use fir_equivalence::laws::equivalent_of_equivalent;
use fir_fold::fold;
use fir_loop::Order;
use fir_net::FlatNet;
use std::alloc::Global;

/// The net of a circuit, and an order of its leaves and nodes.
#[derive(Drop)]
pub struct Compiled {
    pub net: FlatNet,
    pub order: Order,
}

/// The net with its nodes simplified, and without the leaves and nodes that nothing needs.
pub fn simplified(alloc: Global, ordered: OrderedNet) -> Result<Compiled, MemoryOut>
    requires whole { IsNet ordered.net }
    requires in_order { IsOrder ordered.net ordered.order }
    ensures equivalent { IfOk result (λ compiled. IsEquivalent ordered.net compiled.net) }
    ensures in_order { IfOk result (λ compiled. IsOrder compiled.net compiled.order) }
{
    equivalent_of_equivalent();
    let OrderedNet { net, order } = ordered;
    let (net, order) = fold(alloc, net, order)?;
    let (net, order) = drop_dead(alloc, net, order)?;
    Ok(Compiled { net, order })
}

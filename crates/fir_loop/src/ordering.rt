//! The order of a net's leaves and nodes, or a closed walk.

ghost use Rattle.fir_net.specs.working.IsNet.{IsNet};
ghost use Rattle.fir_loop.specs.working.Orders.{Orders};

use crate::circle::loop_fault;
use crate::entries::Order;
use crate::net_graph::NetGraph;
use fir_ast::FirFault;
use fir_base::Refused;
use fir_net::FlatNet;
use fir_net::laws::ordered_has_one;
use std::alloc::Global;

/// The leaves and nodes of the net in an order in which each stands behind all that it hangs on, nodes in the
/// order of their numbers where they hang on none behind them; or E28 with a closed walk, a shortest one
/// through its first leaf (FIRRTL spec, "Combinational Loops"). It takes time in proportion to the net, and no
/// recursion.
pub fn order(alloc: Global, net: &FlatNet) -> Result<Order, Refused<FirFault>>
    requires { IsNet net.now }
    ensures { Orders net.now result }
{
    let graph = NetGraph::new(net);
    match fir_graph::order(alloc, &graph) {
        Ok(order) => {
            ordered_has_one();
            Ok(Order::from_vec(graph.reads(alloc, order.as_slice())?))
        }
        Err(Refused::Fault(circle)) => {
            let circle = graph.reads(alloc, circle.as_slice())?;
            Err(Refused::Fault(loop_fault(alloc, net, circle.as_slice())?))
        }
        Err(Refused::Memory) => Err(Refused::Memory),
    }
}

//! The flat net of a circuit with an order, and the pass to it.

ghost use Rattle.std.specs.Prelude.{◌≡◌};
ghost use Rattle.fir_ast.specs.working.CodeFaults.{fault_of};
ghost use Rattle.fir_pass.specs.Groups.{of_loops};
ghost use Rattle.fir_meaning.specs.working.Stages.{IsClearOf, IsFirstOf};
ghost use Rattle.fir_loop.specs.working.Orders.{IsOrdered};
ghost use Rattle.fir_flatten.specs.working.FlattensTo.{IsFlatNetOf};

use crate::flat::WholeNet;
use fir_ast::FirFault;
use fir_base::Refused;
use fir_loop::{Order, order};
use fir_net::FlatNet;
use fir_pass::{Meant, Pass};
use std::alloc::Global;

/// The net of a circuit, and an order of its leaves and nodes.
#[derive(Drop)]
pub struct OrderedNet {
    pub net: FlatNet,
    pub order: Order,
}

impl Meant for OrderedNet {
    ghost is_of = { λ c x. IsFlatNetOf c x.net × IsOrdered x.net x.order };
}

/// Orders the leaves and nodes of a net: the fault of the last group, E28.
#[derive(Drop)]
pub struct FindOrder;

impl Pass for FindOrder {
    type In = WholeNet;

    type Out = OrderedNet;

    type Fault = (FirFault, WholeNet);

    ghost clear = { IsClearOf of_loops of_loops };

    ghost reports = { λ c f. IsFirstOf of_loops of_loops c (fault_of f.0) };

    ghost hands_back = { λ x f. f.1 ≡ x };

    fn run(&self, alloc: Global, x: WholeNet) -> Result<OrderedNet, Refused<(FirFault, WholeNet)>> {
        match order(alloc, x.net()) {
            Ok(order) => Ok(OrderedNet {
                net: x.into_net(),
                order,
            }),
            Err(Refused::Fault(fault)) => Err(Refused::Fault((fault, x))),
            Err(Refused::Memory) => Err(Refused::Memory),
        }
    }
}

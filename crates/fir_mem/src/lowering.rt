//! A net without pipes.

ghost use Rattle.std.specs.Prelude.{◌≡◌, IfOk};
ghost use Rattle.fir_net.specs.working.IsNet.{IsNet};
ghost use Rattle.fir_net.specs.working.IsOrder.{IsOrder};
ghost use Rattle.fir_net.specs.working.IsWritable.{IsWritable};
ghost use Rattle.fir_mem.specs.working.Lowers.{Lowers};
ghost use Rattle.fir_mem.specs.working.HasPipes.{has_pipes, is_pipe};

use crate::built::Lowered;
use crate::clocked_writes::clocked_writes;
use crate::taken::take_pipes;
use fir_base::{MemoryOut, Seq};
use fir_clock_root::laws::root_is_clock;
use fir_loop::Order;
use fir_net::laws::{nodes_have_their_types, nodes_have_their_values};
use fir_net::{FlatNet, Leaf, Role};
use std::alloc::Global;
use std::mem;

/// The net with a register in the place of each pipe, and its order. Leaves, nodes and entries of the order keep their
/// numbers, and new ones stand behind them; a net without pipes is given back as it is. A port that reads what is written
/// at the same edge takes three nodes for each write of its array that has a clock, and five for itself (FIRRTL spec,
/// "Memories"). Only memory can be wanting.
pub fn lower_pipes(alloc: Global, net: FlatNet, order: Order) -> Result<(FlatNet, Order), MemoryOut>
    requires whole { IsNet net }
    requires writable { IsWritable net }
    requires ordered { IsOrder net order }
    ensures lowers { IfOk result (λ r. Lowers net r.0) }
    ensures ordered { IfOk result (λ r. IsOrder r.0 r.1) }
{
    nodes_have_their_values();
    nodes_have_their_types();
    root_is_clock();
    if !has_pipes(net.leaves.as_slice()) {
        return Ok((net, order));
    }
    let writes = clocked_writes(alloc, &net)?;
    let mut net = net;
    let leaves = mem::replace(&mut net.leaves, Seq::from_vec(Vec::new(alloc)));
    let nodes = mem::replace(&mut net.nodes, Seq::from_vec(Vec::new(alloc)));
    let mut lowered = Lowered::new(alloc, leaves.into_vec(), nodes.into_vec());
    take_pipes(&mut lowered, alloc, writes.as_slice())?;
    let Lowered {
        leaves,
        nodes,
        entries,
    } = lowered;
    let order = order.followed_by(&entries)?;
    net.leaves = Seq::from_vec(leaves);
    net.nodes = Seq::from_vec(nodes);
    Ok((net, order))
}

fn has_pipes(leaves: &[Leaf]) -> bool
    ensures { result ≡ has_pipes leaves.now }
{
    leaves.iter().any(is_pipe)
}

fn is_pipe(leaf: &Leaf) -> bool
    ensures { result ≡ is_pipe leaf.now.role }
{
    matches!(leaf.role, Role::Pipe(_))
}

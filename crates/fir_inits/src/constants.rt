//! The numbers of a net's constants.

ghost use Rattle.std.specs.Prelude.{◌≡◌, ◌≤◌, IfOk, length};
ghost use Rattle.fir_net.specs.working.IsNet.{CanRead, IsLeaf, IsNet};
ghost use Rattle.fir_net.specs.working.Values.{at_width};
ghost use Rattle.fir_work.specs.working.Held.{IsHeld};
ghost use Rattle.fir_work.specs.working.Numbers.{value_in};
ghost use Rattle.fir_inits.specs.working.Constants.{number_of, role_number, AreNumbers};

use fir_base::MemoryOut;
use fir_net::{FlatNet, Leaf, Read, Role};
use fir_work::{fit_task, node_task, place};
use std::alloc::Global;

/// The number of each leaf and node that is a constant, at its place, where the leaves and nodes come in an order of
/// the net. Inputs and states count as 0, on which no constant hangs.
pub fn constants(alloc: Global, net: &FlatNet, order: &[Read]) -> Result<Vec<u128>, MemoryOut>
    requires { IsNet net.now }
    ensures { IfOk result (λ v. AreNumbers net.now order.now (length order.now) v.items) }
{
    let size = net.leaves.as_slice().len() + net.nodes.as_slice().len();
    let mut numbers = vec![in alloc; 0; size]?;
    for read in order {
        if let Some(number) = number_of(net, read, numbers.as_slice()) {
            numbers[place(net, *read)] = number;
        }
    }
    Ok(numbers)
}

/// The number of a node or a driven leaf of the net, from those that it hangs on.
fn number_of(net: &FlatNet, read: &Read, numbers: &[u128]) -> Option<u128>
    requires whole { IsNet net.now }
    requires held { IsHeld net.now numbers.now }
    ensures { result ≡ number_of net.now numbers.now read.now }
{
    match read {
        Read::Leaf(leaf) => match net.leaves.as_slice().get(leaf.number()) {
            Some(leaf) => leaf_number(net, leaf, numbers),
            None => None,
        },
        Read::Node(node) => match net.nodes.as_slice().get(node.number()) {
            Some(_) => Some(node_task(net, node.number()).run(net, numbers)),
            None => None,
        },
    }
}

/// The number of a driven leaf.
fn leaf_number(net: &FlatNet, leaf: &Leaf, numbers: &[u128]) -> Option<u128>
    requires whole { IsNet net.now }
    requires held { IsHeld net.now numbers.now }
    requires leaf { IsLeaf net.now.leaves net.now.nodes leaf.now }
    ensures { result ≡ role_number net.now numbers.now leaf.now.width leaf.now.role }
{
    match leaf.role {
        Role::Output(read) | Role::Wire(read) => Some(fitted(net, read, leaf.width, numbers)),
        _ => None,
    }
}

/// The number of what is read at a width: extended by its own sign, or cut.
pub fn fitted(net: &FlatNet, read: Read, width: u32, numbers: &[u128]) -> u128
    requires whole { IsNet net.now }
    requires held { IsHeld net.now numbers.now }
    requires can { CanRead net.now.leaves net.now.nodes read }
    requires narrow { width ≤ 128 }
    ensures { result ≡ at_width (value_in net.now numbers.now read) width }
{
    fit_task(net, read, width).run(net, numbers)
}

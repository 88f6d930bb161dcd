//! What a node computes by its own definition: the general way, for what has no form of its own.

ghost use Rattle.std.specs.Prelude.{◌≡◌, ◌≤◌, map, slice_get};
ghost use Rattle.std.specs.List.{AllByRecursion};
ghost use Rattle.fir_bits.specs.Values.{fitted};
ghost use Rattle.fir_net.specs.working.Dependence.{support_of};
ghost use Rattle.fir_net.specs.working.Values.{chosen};
ghost use Rattle.fir_work.specs.working.Numbers.{value_in};
ghost use Rattle.fir_work.specs.working.NodeValues.{HasType, NodeHasType, held_node, held_node_at, held_operation};
ghost use Rattle.fir_work.specs.working.Works.{CanCompute, CanFit, IsThere};

use crate::places::place;
use crate::task::number_at;
use crate::types::type_read;
use fir_bits::{Bits, Num, apply};
use fir_net::{FlatNet, Mux, Node, Operation, Read};

/// A number of that many bits at another width: extended by its sign, or cut.
#[inline(never)]
pub fn fitted(signed: bool, width: u32, number: u128, to: u32) -> u128
    requires { CanFit width to number }
    ensures { result ≡ fitted signed width number to }
{
    Bits::of(width, number).fit(signed, to).bits()
}

/// The number of what the node of that number computes.
#[inline(never)]
pub fn node_number(net: &FlatNet, numbers: &[u128], number: usize) -> u128
    requires { CanCompute net.now numbers.now number }
    ensures { result ≡ (held_node_at (value_in net.now numbers.now) (slice_get net.now.nodes number)).value.number }
{
    number_of(net, numbers, &net.nodes.as_slice()[number])
}

/// The number of what a node computes.
fn number_of(net: &FlatNet, numbers: &[u128], node: &Node) -> u128
    requires there { AllByRecursion (IsThere net.now numbers.now) (support_of node.now) }
    requires has_type { NodeHasType (value_in net.now numbers.now) node.now }
    ensures { result ≡ (held_node (value_in net.now numbers.now) node.now).value.number }
{
    match node {
        Node::Literal(value) => value.value.bits(),
        Node::Operation(operation) => result_bits(net, numbers, operation).bits(),
        Node::Mux(mux) => chosen_number(net, numbers, mux),
    }
}

/// The bits of the result of an operation.
fn result_bits(net: &FlatNet, numbers: &[u128], operation: &Operation) -> Bits
    requires there { AllByRecursion (IsThere net.now numbers.now) operation.now.reads }
    requires has_type { HasType (value_in net.now numbers.now) operation.now }
    ensures { result ≡ (held_operation (value_in net.now numbers.now) operation.now).value }
{
    let integers = operation.integers.as_slice();
    match operation.reads.as_slice() {
        [a] => apply(operation.op, &[value_in(net, numbers, a)], integers),
        [a, b] => apply(
            operation.op,
            &[value_in(net, numbers, a), value_in(net, numbers, b)],
            integers,
        ),
        _ => unreachable!(),
    }
}

/// The number of the one of two values that a condition chooses, at the mux's width.
fn chosen_number(net: &FlatNet, numbers: &[u128], mux: &Mux) -> u128
    requires there { AllByRecursion (IsThere net.now numbers.now) mux.now.reads }
    requires narrow { mux.now.width ≤ 128 }
    ensures { result ≡ (chosen (record { signed = mux.now.signed; width = mux.now.width }) (map (value_in net.now numbers.now) mux.now.reads)).value.number }
{
    let [condition, one, zero] = &mux.reads;
    let taken = if value_in(net, numbers, condition).value.bits() == 1 {
        value_in(net, numbers, one)
    } else {
        value_in(net, numbers, zero)
    };
    taken.value.fit(taken.signed, mux.width).bits()
}

/// The value of a leaf or a node.
fn value_in(net: &FlatNet, numbers: &[u128], read: &Read) -> Num
    requires { IsThere net.now numbers.now read.now }
    ensures { result ≡ value_in net.now numbers.now read.now }
{
    let ty = type_read(net, read);
    let number = number_at(numbers, place(net, *read));
    Num {
        signed: ty.signed,
        value: Bits::of(ty.width, number),
    }
}

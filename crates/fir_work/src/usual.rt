//! The task of a node that has a form.

ghost use Rattle.std.specs.Prelude.{◌≡◌, [], ◌∷◌, IfSome, slice_index};
ghost use Rattle.fir_net.specs.declared.node.Node.{Node as Given};
ghost use Rattle.fir_net.specs.working.IsNet.{IsMux, IsNet, IsNode, IsOperation};
ghost use Rattle.fir_work.specs.working.Tasks.{IsNodeTask};

use crate::fit_work::is_plain;
use crate::pair_work::pair_work;
use crate::places::place;
use crate::single_work::single_work;
use crate::task::Task;
use crate::types::type_read;
use crate::work::Work;
use fir_net::{FlatNet, Mux, Node, Operation, Read};

/// The task of a node, if it has a form.
pub fn usual_task(net: &FlatNet, node: &Node) -> Option<Task>
    requires whole { IsNet net.now }
    requires is { IsNode net.now.leaves net.now.nodes node.now }
    ensures { IfSome result (IsNodeTask net.now node.now) }
{
    match node {
        Node::Literal(value) => Some(alone(Work::Literal(value.value.bits()))),
        Node::Operation(operation) => match operation.reads.as_slice() {
            [a] => single_task(net, operation, a),
            [a, b] => pair_task(net, operation, a, b),
            _ => None,
        },
        Node::Mux(mux) => {
            let [condition, one, zero] = &mux.reads;
            choice_task(net, mux, condition, one, zero)
        }
    }
}

/// The task of an operation on one operand.
fn single_task(net: &FlatNet, operation: &Operation, a: &Read) -> Option<Task>
    requires whole { IsNet net.now }
    requires reads { operation.now.reads ≡ a.now ∷ [] }
    requires is { IsOperation net.now.leaves net.now.nodes operation.now }
    ensures { IfSome result (IsNodeTask net.now (Given.Operation operation.now)) }
{
    let integers = operation.integers.as_slice();
    let (n, m) = (integer(integers, 0), integer(integers, 1));
    let work = single_work(operation.op, type_read(net, a), n, m, operation.width)?;
    Some(Task {
        first: place(net, *a),
        second: 0,
        third: 0,
        work,
    })
}

/// The task of an operation on two operands.
fn pair_task(net: &FlatNet, operation: &Operation, a: &Read, b: &Read) -> Option<Task>
    requires whole { IsNet net.now }
    requires reads { operation.now.reads ≡ a.now ∷ b.now ∷ [] }
    requires is { IsOperation net.now.leaves net.now.nodes operation.now }
    ensures { IfSome result (IsNodeTask net.now (Given.Operation operation.now)) }
{
    let (first, second) = (type_read(net, a), type_read(net, b));
    let work = pair_work(operation.op, first, second, operation.width)?;
    Some(Task {
        first: place(net, *a),
        second: place(net, *b),
        third: 0,
        work,
    })
}

/// The task of a mux neither of whose values is to be extended.
fn choice_task(net: &FlatNet, mux: &Mux, condition: &Read, one: &Read, zero: &Read) -> Option<Task>
    requires whole { IsNet net.now }
    requires reads { mux.now.reads ≡ condition.now ∷ one.now ∷ zero.now ∷ [] }
    requires is { IsMux net.now.leaves net.now.nodes mux.now }
    ensures { IfSome result (IsNodeTask net.now (Given.Mux mux.now)) }
{
    let width = mux.width;
    if !is_plain(type_read(net, one), width) || !is_plain(type_read(net, zero), width) {
        return None;
    }
    Some(Task {
        first: place(net, *condition),
        second: place(net, *one),
        third: place(net, *zero),
        work: Work::Choose,
    })
}

/// The task of work that takes no operands.
pub fn alone(work: Work) -> Task
    ensures { result ≡ record { first = 0; second = 0; third = 0; work = work } }
{
    Task {
        first: 0,
        second: 0,
        third: 0,
        work,
    }
}

/// The integer at that place, or 0 past the end.
fn integer(integers: &[u128], place: usize) -> u128
    ensures { result ≡ slice_index integers.now place }
{
    integers.get(place).copied().unwrap_or(0)
}

//! The steps of a tick: one for each leaf or node that hangs on anything, in an order of the net.

ghost use Rattle.std.specs.Prelude.{◌≡◌, ◌+◌, ◌<◌, ◌≤◌, IfOk, Some, length, slice_get};
ghost use Rattle.fir_net.specs.working.Dependence.{IsOf};
ghost use Rattle.fir_net.specs.working.IsNet.{CanBeReset, IsNet};
ghost use Rattle.fir_net.specs.working.IsOrder.{IsOrder};
ghost use Rattle.fir_tick.specs.working.ArraySpans.{AreSpans};
ghost use Rattle.fir_tick.specs.working.Steps.{given, AreSteps, CanGive, IsLeafWork, IsRegisterWork, IsWorkOf};
ghost use Rattle.fir_tick.specs.working.Views.{numbers as words_of};

use crate::array_reads::{WordRead, word_read};
use crate::spans::ArraySpan;
use fir_ast::LeafId;
use fir_base::MemoryOut;
use fir_bits::Bits;
use fir_net::{FlatNet, Leaf, Read, Reset, ResetKind, Role};
use fir_work::{Task, fit_task, node_task, place, shown_task};
use std::alloc::Global;

/// What gives a leaf or a node its number.
#[derive(Clone, Copy)]
pub enum StepWork {
    /// The numbers of other leaves and nodes.
    Task(Task),
    /// A word of an array.
    Word(WordRead),
}

/// A leaf or a node: the place of its number, and what gives it.
#[derive(Clone, Copy)]
pub struct Step {
    pub place: usize,
    pub work: StepWork,
}

impl StepWork {
    /// The number that it gives, of the words of the state and all numbers of a tick.
    #[inline]
    pub fn run(&self, net: &FlatNet, state: &[Bits], numbers: &[u128]) -> u128
        requires { CanGive net.now (length state.now) self.now numbers.now }
        ensures { result ≡ given net.now (words_of state.now) self.now numbers.now }
    {
        match self {
            StepWork::Task(task) => task.run(net, numbers),
            StepWork::Word(read) => read.run(state, numbers),
        }
    }
}

/// The steps of a net, whose arrays stand there, in an order of it.
pub fn steps_of(
    alloc: Global,
    net: &FlatNet,
    spans: &[ArraySpan],
    order: &[Read],
) -> Result<Vec<Step>, MemoryOut>
    requires whole { IsNet net.now }
    requires spans { AreSpans net.now spans.now }
    requires ordered { IsOrder net.now order.now }
    ensures { IfOk result (λ v. AreSteps net.now order.now v.items) }
{
    let mut steps = Vec::new(alloc);
    for read in order {
        if let Some(step) = step_of(net, spans, *read) {
            steps.push(step)?;
        }
    }
    Ok(steps)
}

/// The step of a leaf or a node, if it hangs on anything.
fn step_of(net: &FlatNet, spans: &[ArraySpan], read: Read) -> Option<Step>
    requires whole { IsNet net.now }
    requires spans { AreSpans net.now spans.now }
    requires there { IsOf net.now read }
    ensures { IsWorkOf net.now read result }
{
    let work = match read {
        Read::Leaf(leaf) => leaf_work(net, spans, leaf, &net.leaves.as_slice()[leaf.number()]),
        Read::Node(node) => Some(StepWork::Task(node_task(net, node.number()))),
    };
    match work {
        Some(work) => Some(Step {
            place: place(net, read),
            work,
        }),
        None => None,
    }
}

/// What gives a leaf its number, if it hangs on anything.
fn leaf_work(net: &FlatNet, spans: &[ArraySpan], number: LeafId, leaf: &Leaf) -> Option<StepWork>
    requires whole { IsNet net.now }
    requires spans { AreSpans net.now spans.now }
    requires at { slice_get net.now.leaves number ≡ Some leaf.now }
    ensures { IsLeafWork net.now number leaf.now.width leaf.now.role result }
{
    match leaf.role {
        Role::Output(read) => Some(StepWork::Task(fit_task(net, read, leaf.width))),
        Role::Wire(read) => Some(StepWork::Task(fit_task(net, read, leaf.width))),
        Role::Register(register) => match register_task(net, number, leaf, register.reset) {
            Some(task) => Some(StepWork::Task(task)),
            None => None,
        },
        Role::Reading(read) => Some(StepWork::Word(word_read(net, spans, read))),
        Role::Input | Role::Clock | Role::Pipe(_) | Role::ClockOutput(_) | Role::ClockWire(_) =>
            None,
    }
}

/// The task of a register, if it has an asynchronous reset.
fn register_task(net: &FlatNet, number: LeafId, leaf: &Leaf, reset: Option<Reset>) -> Option<Task>
    requires whole { IsNet net.now }
    requires there { number < length net.now.leaves }
    requires can { CanBeReset net.now.leaves net.now.nodes leaf.now.signed reset }
    requires narrow { leaf.now.width ≤ 128 }
    ensures { IsRegisterWork net.now number leaf.now.width reset result }
{
    match reset {
        Some(
            Reset {
                kind: ResetKind::Asynchronous,
                condition,
                init,
            },
        ) => Some(shown_task(net, number, leaf.width, condition, init)),
        _ => None,
    }
}

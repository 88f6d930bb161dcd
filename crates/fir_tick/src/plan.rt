//! What a tick does with the leaves that have bits, worked out once.

ghost use Rattle.std.specs.Prelude.{◌≡◌, ◌≤◌, IfOk, Some, slice_get, true};
ghost use Rattle.std.specs.List.{AllZip};
ghost use Rattle.std.specs.Option.{option_to_list};
ghost use Rattle.fir_net.specs.working.IsNet.{CanBeDriven, CanBeReset, IsNet, is_word};
ghost use Rattle.fir_net.specs.working.IsOrder.{IsOrder};
ghost use Rattle.fir_net.specs.working.Settled.{registers};
ghost use Rattle.fir_tick.specs.working.ArraySpans.{AreSpans};
ghost use Rattle.fir_tick.specs.working.Plans.{input_plan, output_plan, plans_by, IsNextPlan, IsPlan, IsRegisterPlan, IsResetPlan};

use crate::pipe_plans::{PipePlan, pipe_plans};
use crate::roots::{clock_roots, root_at};
use crate::spans::ArraySpan;
use crate::write_plans::{WritePlan, write_plans};
use fir_base::MemoryOut;
use fir_net::{FlatNet, Leaf, Read, Reset, ResetKind, Role};
use fir_work::{Task, fit_task, place};
use std::alloc::Global;

/// An input: the number of its leaf, and its width in bits.
#[derive(Clone, Copy)]
pub struct InputPlan {
    pub leaf: usize,
    pub width: u32,
}

/// An output: the number of its leaf, and its width in bits.
#[derive(Clone, Copy)]
pub struct OutputPlan {
    pub leaf: usize,
    pub width: u32,
}

/// The reset of a register: its kind, the place of the condition, and what gives the init at the register's
/// width.
#[derive(Clone, Copy)]
pub struct ResetPlan {
    pub kind: ResetKind,
    pub condition: usize,
    pub init: Task,
}

/// A register: the number of its leaf, its width in bits, the number of its clock among the clock inputs, if it
/// has one, its reset, and what gives that which drives it, at its width. A pipe stands among them as a register
/// that holds its word.
#[derive(Clone, Copy)]
pub struct RegisterPlan {
    pub leaf: usize,
    pub width: u32,
    pub clock: Option<usize>,
    pub reset: Option<ResetPlan>,
    pub next: Option<Task>,
}

/// The inputs and outputs of a net, each in the order of the leaves, the registers and pipes in the order of the
/// state, the pipes that read arrays before they are written, the writes of arrays in the order in which they
/// are done, and the pipes that read arrays after it.
#[derive(Drop)]
pub struct Plan {
    pub inputs: Vec<InputPlan>,
    pub outputs: Vec<OutputPlan>,
    pub registers: Vec<RegisterPlan>,
    pub before_writes: Vec<PipePlan>,
    pub writes: Vec<WritePlan>,
    pub after_writes: Vec<PipePlan>,
}

impl Plan {
    /// The plan of a net, whose arrays stand there, with an order of it.
    pub fn new(
        alloc: Global,
        net: &FlatNet,
        spans: &[ArraySpan],
        order: &[Read],
    ) -> Result<Plan, MemoryOut>
        requires whole { IsNet net.now }
        requires spans { AreSpans net.now spans.now }
        requires ordered { IsOrder net.now order.now }
        ensures { IfOk result (λ p. IsPlan net.now p) }
    {
        let leaves = net.leaves.as_slice();
        let roots = clock_roots(alloc, net, order)?;
        Ok(Plan {
            inputs: input_plans(alloc, leaves)?,
            outputs: output_plans(alloc, leaves)?,
            registers: register_plans(alloc, net, roots.as_slice())?,
            before_writes: pipe_plans(alloc, net, spans, roots.as_slice(), false)?,
            writes: write_plans(alloc, net, spans, roots.as_slice())?,
            after_writes: pipe_plans(alloc, net, spans, roots.as_slice(), true)?,
        })
    }
}

fn input_plans(alloc: Global, leaves: &[Leaf]) -> Result<Vec<InputPlan>, MemoryOut>
    ensures { IfOk result (λ v. v.items ≡ plans_by input_plan 0 leaves.now) }
{
    let mut plans = Vec::new(alloc);
    for (k, leaf) in leaves.iter().enumerate() {
        if let Some(plan) = input_plan(leaf, k) {
            plans.push(plan)?;
        }
    }
    Ok(plans)
}

fn input_plan(leaf: &Leaf, k: usize) -> Option<InputPlan>
    ensures { option_to_list result ≡ input_plan leaf.now.role leaf.now.width k }
{
    let width = leaf.width;
    match leaf.role {
        Role::Input if width > 0 => Some(InputPlan { leaf: k, width }),
        _ => None,
    }
}

fn output_plans(alloc: Global, leaves: &[Leaf]) -> Result<Vec<OutputPlan>, MemoryOut>
    ensures { IfOk result (λ v. v.items ≡ plans_by output_plan 0 leaves.now) }
{
    let mut plans = Vec::new(alloc);
    for (k, leaf) in leaves.iter().enumerate() {
        if let Some(plan) = output_plan(leaf, k) {
            plans.push(plan)?;
        }
    }
    Ok(plans)
}

fn output_plan(leaf: &Leaf, k: usize) -> Option<OutputPlan>
    ensures { option_to_list result ≡ output_plan leaf.now.role leaf.now.width k }
{
    let width = leaf.width;
    match leaf.role {
        Role::Output(_) if width > 0 => Some(OutputPlan { leaf: k, width }),
        _ => None,
    }
}

fn register_plans(
    alloc: Global,
    net: &FlatNet,
    roots: &[Option<usize>],
) -> Result<Vec<RegisterPlan>, MemoryOut>
    requires { IsNet net.now }
    ensures { IfOk result (λ v. AllZip (IsRegisterPlan net.now roots.now) v.items (registers net.now)) }
{
    let leaves = net.leaves.as_slice();
    let state = net.state.as_slice();
    let mut plans = Vec::new(alloc);
    for word in state {
        let number = word.number();
        plans.push(register_plan(net, roots, &leaves[number], number))?;
    }
    Ok(plans)
}

/// The plan of a word of the state, whose leaf has that number.
fn register_plan(net: &FlatNet, roots: &[Option<usize>], leaf: &Leaf, number: usize) -> RegisterPlan
    requires whole { IsNet net.now }
    requires at { slice_get net.now.leaves number ≡ Some leaf.now }
    requires word { is_word leaf.now ≡ true }
    ensures { IsRegisterPlan net.now roots.now result number }
{
    match leaf.role {
        Role::Register(register) => RegisterPlan {
            leaf: number,
            width: leaf.width,
            clock: root_at(roots, register.clock),
            reset: reset_plan(net, leaf, register.reset),
            next: next_plan(net, leaf, register.next),
        },
        Role::Pipe(_) => RegisterPlan {
            leaf: number,
            width: leaf.width,
            clock: None,
            reset: None,
            next: None,
        },
        _ => unreachable!(),
    }
}

/// The reset of a register.
fn reset_plan(net: &FlatNet, leaf: &Leaf, reset: Option<Reset>) -> Option<ResetPlan>
    requires whole { IsNet net.now }
    requires can { CanBeReset net.now.leaves net.now.nodes leaf.now.signed reset }
    requires narrow { leaf.now.width ≤ 128 }
    ensures { IsResetPlan net.now leaf.now.width reset result }
{
    match reset {
        Some(reset) => Some(ResetPlan {
            kind: reset.kind,
            condition: place(net, reset.condition),
            init: fit_task(net, reset.init, leaf.width),
        }),
        None => None,
    }
}

/// What gives that which drives a register.
fn next_plan(net: &FlatNet, leaf: &Leaf, next: Option<Read>) -> Option<Task>
    requires whole { IsNet net.now }
    requires can { CanBeDriven net.now.leaves net.now.nodes leaf.now.signed next }
    requires narrow { leaf.now.width ≤ 128 }
    ensures { IsNextPlan net.now leaf.now.width next result }
{
    match next {
        Some(read) => Some(fit_task(net, read, leaf.width)),
        None => None,
    }
}

//! The passes of a tick. None takes memory.

ghost use Rattle.std.specs.Prelude.{◌≡◌, ℕ, ◌++◌, ◌<◌, ◌≤◌, ◌^◌, drop, length, map, slice_index, slice_set};
ghost use Rattle.std.specs.List.{AllByRecursion};
ghost use Rattle.fir_base.specs.Ticks.{rises};
ghost use Rattle.fir_bits.specs.Values.{IsBitVector};
ghost use Rattle.fir_net.specs.working.Next.{ticks};
ghost use Rattle.fir_tick.specs.working.Passes.{with_inputs, with_state, CanTake, IsPlaced, IsShown, IsWithin, output_value, next_number, taken_number, edge_number, register_value};

use crate::plan::{InputPlan, OutputPlan, RegisterPlan};
use fir_bits::Bits;
use fir_net::{FlatNet, ResetKind};

/// Puts the inputs' numbers into their places.
pub fn put_inputs(plans: &[InputPlan], values: &[u128], numbers: &mut [u128])
    requires within { AllByRecursion (IsWithin (length numbers.old)) plans.now }
    requires long { length values.now ≡ length plans.now }
    ensures { numbers.new ≡ with_inputs plans.now values.now numbers.old }
{
    for (j, plan) in plans.iter().enumerate() {
        put(numbers, plan.leaf, values[j]);
    }
}

/// Puts the words of registers and pipes, which stand in front of the state, into their places.
pub fn put_state(plans: &[RegisterPlan], state: &[Bits], numbers: &mut [u128])
    requires within { AllByRecursion (IsPlaced (length numbers.old)) plans.now }
    requires long { length plans.now ≤ length state.now }
    ensures { numbers.new ≡ with_state plans.now state.now numbers.old }
{
    for (j, plan) in plans.iter().enumerate() {
        put(numbers, plan.leaf, state[j].bits());
    }
}

/// Puts a number into a place.
fn put(numbers: &mut [u128], place: usize, number: u128)
    requires { place < length numbers.old }
    ensures { numbers.new ≡ slice_set numbers.old place number }
{
    numbers[place] = number;
}

/// Shows the outputs, which are leaves.
pub fn show_outputs(plans: &[OutputPlan], numbers: &[u128], outputs: &mut [Bits])
    requires shown { AllByRecursion (IsShown numbers.now) plans.now }
    requires room { length outputs.old ≡ length plans.now }
    ensures values { outputs.new ≡ map (output_value numbers.now) plans.now }
    ensures whole { AllByRecursion IsBitVector outputs.new }
{
    for (j, plan) in plans.iter().enumerate() {
        outputs[j] = shown(plan, numbers);
    }
}

/// The value of an output.
fn shown(plan: &OutputPlan, numbers: &[u128]) -> Bits
    requires { IsShown numbers.now plan.now }
    ensures value { result ≡ output_value numbers.now plan.now }
    ensures whole { IsBitVector result }
{
    Bits::of(plan.width, numbers[plan.leaf])
}

/// Gives each register its word after the edges of the named clocks, from the numbers before them. Pipes hold
/// theirs, and the words behind these stay.
pub fn take_edges(
    net: &FlatNet,
    plans: &[RegisterPlan],
    named: &[usize],
    numbers: &[u128],
    state: &mut [Bits],
)
    requires can { AllByRecursion (CanTake net.now numbers.now) plans.now }
    requires rising { (i j : ℕ) → i ≤ j → j < length named.now → slice_index named.now i ≤ slice_index named.now j }
    requires room { length plans.now ≤ length state.old }
    requires whole { AllByRecursion IsBitVector state.old }
    ensures values { state.new ≡ map (register_value net.now numbers.now named.now) plans.now ++ drop (length plans.now) state.old }
    ensures room { length state.new ≡ length state.old }
    ensures whole { AllByRecursion IsBitVector state.new }
{
    for (j, plan) in plans.iter().enumerate() {
        state[j] = next_word(net, plan, named, numbers);
    }
}

/// The word of a register after the edges of the named clocks.
fn next_word(net: &FlatNet, plan: &RegisterPlan, named: &[usize], numbers: &[u128]) -> Bits
    requires can { CanTake net.now numbers.now plan.now }
    requires rising { (i j : ℕ) → i ≤ j → j < length named.now → slice_index named.now i ≤ slice_index named.now j }
    ensures value { result ≡ register_value net.now numbers.now named.now plan.now }
    ensures whole { IsBitVector result }
{
    Bits::of(
        plan.width,
        after_edges(net, plan, ticks(named, plan.clock), numbers),
    )
}

/// The number of a register after an edge of its clock, or without one.
fn after_edges(net: &FlatNet, plan: &RegisterPlan, edge: bool, numbers: &[u128]) -> u128
    requires { CanTake net.now numbers.now plan.now }
    ensures value { result ≡ edge_number net.now numbers.now edge plan.now }
    ensures fits { result < 2 ^ plan.now.width }
{
    let now = numbers[plan.leaf];
    if edge {
        taken(net, plan, now, numbers)
    } else {
        now
    }
}

/// What a register takes at an edge, whose number is this.
fn taken(net: &FlatNet, plan: &RegisterPlan, now: u128, numbers: &[u128]) -> u128
    requires can { CanTake net.now numbers.now plan.now }
    requires holds { now < 2 ^ plan.now.width }
    ensures value { result ≡ taken_number net.now numbers.now now plan.now.reset plan.now.next }
    ensures fits { result < 2 ^ plan.now.width }
{
    match &plan.reset {
        Some(reset) if numbers[reset.condition] == 1 => match reset.kind {
            ResetKind::Synchronous => reset.init.run(net, numbers),
            ResetKind::Asynchronous => now,
        },
        _ => driven(net, plan, now, numbers),
    }
}

/// What drives a register, or the number that it holds.
fn driven(net: &FlatNet, plan: &RegisterPlan, now: u128, numbers: &[u128]) -> u128
    requires can { CanTake net.now numbers.now plan.now }
    requires holds { now < 2 ^ plan.now.width }
    ensures value { result ≡ next_number net.now numbers.now now plan.now.next }
    ensures fits { result < 2 ^ plan.now.width }
{
    match &plan.next {
        Some(task) => task.run(net, numbers),
        None => now,
    }
}

/// Whether a clock, or none, is among the named ones.
pub fn ticks(named: &[usize], clock: Option<usize>) -> bool
    requires { (i j : ℕ) → i ≤ j → j < length named.now → slice_index named.now i ≤ slice_index named.now j }
    ensures { result ≡ ticks named.now clock }
{
    match clock {
        Some(clock) => rises(named, clock),
        None => false,
    }
}

/// Whether the clock of that number is among the named ones.
fn rises(named: &[usize], clock: usize) -> bool
    requires { (i j : ℕ) → i ≤ j → j < length named.now → slice_index named.now i ≤ slice_index named.now j }
    ensures { result ≡ rises named.now clock }
{
    named.binary_search(&clock).is_ok()
}

//! What the writes of arrays do at a tick. It takes no memory, and touches no word but those that are written.

ghost use Rattle.std.specs.Prelude.{◌≡◌, ℕ, ◌<◌, ◌≤◌, length, slice_index};
ghost use Rattle.std.specs.List.{AllByRecursion};
ghost use Rattle.fir_bits.specs.Values.{IsBitVector};
ghost use Rattle.fir_tick.specs.working.ArrayWrites.{is_written, one_written, written, CanWrite};

use crate::passes::ticks;
use crate::write_plans::WritePlan;
use fir_bits::Bits;
use fir_net::FlatNet;
use fir_work::number_at;

/// Writes into the words of the state what is given at the edges of the named clocks, one write after the
/// other, from the numbers before the edges.
pub fn write_arrays(
    net: &FlatNet,
    plans: &[WritePlan],
    named: &[usize],
    numbers: &[u128],
    state: &mut [Bits],
)
    requires can { AllByRecursion (CanWrite net.now numbers.now (length state.old)) plans.now }
    requires rising { (i j : ℕ) → i ≤ j → j < length named.now → slice_index named.now i ≤ slice_index named.now j }
    requires whole { AllByRecursion IsBitVector state.old }
    ensures values { state.new ≡ written net.now numbers.now named.now plans.now state.old }
    ensures room { length state.new ≡ length state.old }
    ensures whole { AllByRecursion IsBitVector state.new }
{
    for plan in plans {
        write_word(net, plan, named, numbers, state);
    }
}

/// Writes a word, where its clock is named, its condition is 1 and its address is one of the array.
fn write_word(
    net: &FlatNet,
    plan: &WritePlan,
    named: &[usize],
    numbers: &[u128],
    state: &mut [Bits],
)
    requires can { CanWrite net.now numbers.now (length state.old) plan.now }
    requires rising { (i j : ℕ) → i ≤ j → j < length named.now → slice_index named.now i ≤ slice_index named.now j }
    requires whole { AllByRecursion IsBitVector state.old }
    ensures values { state.new ≡ one_written net.now numbers.now named.now plan.now state.old }
    ensures whole { AllByRecursion IsBitVector state.new }
{
    if is_written(plan, named, numbers) {
        let address = number_at(numbers, plan.address) as usize;
        state[plan.span.begin + address] = Bits::of(plan.width, plan.given.run(net, numbers));
    }
}

/// Whether something is written.
fn is_written(plan: &WritePlan, named: &[usize], numbers: &[u128]) -> bool
    requires { (i j : ℕ) → i ≤ j → j < length named.now → slice_index named.now i ≤ slice_index named.now j }
    ensures { result ≡ is_written numbers.now named.now plan.now }
{
    ticks(named, plan.clock)
        && number_at(numbers, plan.condition) == 1
        && number_at(numbers, plan.address) < plan.span.words as u128
}

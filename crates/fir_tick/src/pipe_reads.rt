//! What pipes take of arrays at a tick. It takes no memory, and reads one word for each pipe whose clock is named.

ghost use Rattle.std.specs.Prelude.{◌≡◌, ℕ, ◌<◌, ◌≤◌, length, slice_index};
ghost use Rattle.std.specs.List.{AllByRecursion};
ghost use Rattle.fir_bits.specs.Values.{IsBitVector};
ghost use Rattle.fir_tick.specs.working.PipeReads.{one_piped, piped, CanPipe};

use crate::passes::ticks;
use crate::pipe_plans::PipePlan;
use fir_bits::Bits;

/// Gives each of these pipes what it reads of the words of the state at an edge of its clock, by the numbers
/// before the edges.
pub fn take_words(plans: &[PipePlan], named: &[usize], numbers: &[u128], state: &mut [Bits])
    requires can { AllByRecursion (CanPipe (length state.old)) plans.now }
    requires rising { (i j : ℕ) → i ≤ j → j < length named.now → slice_index named.now i ≤ slice_index named.now j }
    requires whole { AllByRecursion IsBitVector state.old }
    ensures values { state.new ≡ piped numbers.now named.now plans.now state.old }
    ensures room { length state.new ≡ length state.old }
    ensures whole { AllByRecursion IsBitVector state.new }
{
    for plan in plans {
        take_word(plan, named, numbers, state);
    }
}

/// Gives a pipe what it reads, where its clock is named.
fn take_word(plan: &PipePlan, named: &[usize], numbers: &[u128], state: &mut [Bits])
    requires can { CanPipe (length state.old) plan.now }
    requires rising { (i j : ℕ) → i ≤ j → j < length named.now → slice_index named.now i ≤ slice_index named.now j }
    requires whole { AllByRecursion IsBitVector state.old }
    ensures values { state.new ≡ one_piped numbers.now named.now plan.now state.old }
    ensures room { length state.new ≡ length state.old }
    ensures whole { AllByRecursion IsBitVector state.new }
{
    if ticks(named, plan.clock) {
        let word = plan.read.word(plan.width, state, numbers);
        state[plan.place] = word;
    }
}

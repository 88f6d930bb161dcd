//! The values before the first tick.

ghost use Rattle.std.specs.Prelude.{◌≡◌, ◌+◌, ◌++◌, ◌≤◌, IfOk, OnOk, length, map, replicate};
ghost use Rattle.std.specs.List.{AllByRecursion};
ghost use Rattle.fir_base.specs.Ticks.{FitEach};
ghost use Rattle.fir_bits.specs.Values.{IsBitVector};
ghost use Rattle.fir_net.specs.working.IsNet.{IsNet};
ghost use Rattle.fir_net.specs.working.Settled.{shape};
ghost use Rattle.fir_net.specs.working.Values.{leaf_width};
ghost use Rattle.fir_tick.specs.working.Passes.{values_of, output_zero, IsNarrowOutput};

use crate::plan::OutputPlan;
use fir_base::MemoryOut;
use fir_bits::Bits;
use fir_net::FlatNet;
use std::alloc::Global;

/// The words of the state of a net.
pub fn state_of(alloc: Global, net: &FlatNet, words: &[u128]) -> Result<Vec<Bits>, MemoryOut>
    requires whole { IsNet net.now }
    requires fits { FitEach (shape net.now).state words.now }
    ensures values { IfOk result (λ v. v.items ≡ values_of (shape net.now).state words.now) }
    ensures whole { IfOk result (λ v. AllByRecursion IsBitVector v.items) }
{
    let widths = state_widths(alloc, net)?;
    words_at(alloc, widths.as_slice(), words)
}

/// Words at these widths.
fn words_at(alloc: Global, widths: &[u32], words: &[u128]) -> Result<Vec<Bits>, MemoryOut>
    requires narrow { AllByRecursion (λ w. w ≤ 128) widths.now }
    requires fits { FitEach widths.now words.now }
    ensures values { IfOk result (λ v. v.items ≡ values_of widths.now words.now) }
    ensures whole { IfOk result (λ v. AllByRecursion IsBitVector v.items) }
{
    let mut state = Vec::new(alloc);
    for (j, width) in widths.iter().enumerate() {
        state.push(Bits::of(*width, words[j]))?;
    }
    Ok(state)
}

/// The widths of the words of the state: of registers and pipes, and then of each array as often as it has
/// words.
fn state_widths(alloc: Global, net: &FlatNet) -> Result<Vec<u32>, MemoryOut>
    requires { IsNet net.now }
    ensures widths { IfOk result (λ v. v.items ≡ (shape net.now).state) }
    ensures narrow { IfOk result (λ v. AllByRecursion (λ w. w ≤ 128) v.items) }
{
    let arrays = net.arrays.as_slice();
    let order = net.array_order.as_slice();
    let mut widths = register_widths(alloc, net)?;
    for number in order {
        let array = &arrays[*number];
        put_widths(array.width, array.words, &mut widths)?;
    }
    Ok(widths)
}

/// The widths of the registers and pipes of the state.
fn register_widths(alloc: Global, net: &FlatNet) -> Result<Vec<u32>, MemoryOut>
    requires { IsNet net.now }
    ensures widths { IfOk result (λ v. v.items ≡ map (leaf_width net.now.leaves) net.now.state) }
    ensures narrow { IfOk result (λ v. AllByRecursion (λ w. w ≤ 128) v.items) }
{
    let leaves = net.leaves.as_slice();
    let state = net.state.as_slice();
    let mut widths = Vec::new(alloc);
    for word in state {
        let number = word.number();
        widths.push(leaves[number].width)?;
    }
    Ok(widths)
}

/// Appends a width so many times.
fn put_widths(width: u32, count: usize, widths: &mut Vec<u32>) -> Result<(), MemoryOut>
    ensures { OnOk result (widths.new.items ≡ widths.old.items ++ replicate count width) }
{
    for _ in 0..count {
        widths.push(width)?;
    }
    Ok(())
}

/// A 0 for each leaf and each node.
pub fn zeros(alloc: Global, net: &FlatNet) -> Result<Vec<u128>, MemoryOut>
    ensures { IfOk result (λ v. v.items ≡ replicate (length net.now.leaves + length net.now.nodes) 0) }
{
    let count = net.leaves.as_slice().len() + net.nodes.as_slice().len();
    Ok(vec![in alloc; 0; count]?)
}

/// A 0 for each output, at its width.
pub fn output_zeros(alloc: Global, plans: &[OutputPlan]) -> Result<Vec<Bits>, MemoryOut>
    requires { AllByRecursion IsNarrowOutput plans.now }
    ensures { IfOk result (λ v. v.items ≡ map output_zero plans.now) }
{
    let mut zeros = Vec::new(alloc);
    for plan in plans {
        zeros.push(Bits::of(plan.width, 0))?;
    }
    Ok(zeros)
}

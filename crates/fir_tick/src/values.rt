//! The values of a net at a tick. No pass of a tick takes memory.

ghost use Rattle.std.specs.Prelude.{◌≡◌, ◌≤◌, ◌<◌, ℕ, length, map, slice_index};
ghost use Rattle.std.specs.List.{AllByRecursion};
ghost use Rattle.fir_base.specs.Ticks.{FitEach};
ghost use Rattle.fir_bits.specs.Values.{IsBitVector};
ghost use Rattle.fir_net.specs.working.IsNet.{IsNet};
ghost use Rattle.fir_net.specs.working.Settled.{shape};
ghost use Rattle.fir_work.specs.working.Held.{IsHeld};
ghost use Rattle.fir_tick.specs.working.Settling.{IsSettled};
ghost use Rattle.fir_tick.specs.working.Steps.{IsStepped};
ghost use Rattle.fir_tick.specs.working.ArrayWrites.{after_edges, CanWrite};
ghost use Rattle.fir_tick.specs.working.Passes.{with_inputs, with_state, CanTake, IsPlaced, IsShown, IsWithin, output_value};
ghost use Rattle.fir_tick.specs.working.PipeReads.{CanPipe};
ghost use Rattle.fir_tick.specs.working.Views.{numbers as words_of};

use crate::plan::Plan;
use crate::steps::Step;
use crate::{array_writes, passes, pipe_reads, settle};
use fir_bits::Bits;
use fir_net::FlatNet;

/// The numbers of all leaves and then of all nodes, where a clock's leaf has none to speak of; and the values
/// of the outputs and the words of the state, in their order: those of registers and pipes, and then those of arrays.
#[derive(Drop)]
pub struct Values {
    pub numbers: Vec<u128>,
    pub outputs: Vec<Bits>,
    pub state: Vec<Bits>,
}

impl Values {
    /// Puts the words of registers and pipes into their places.
    pub fn put_state(&mut self, plan: &Plan)
        requires within { AllByRecursion (IsPlaced (length self.old.numbers.items)) plan.now.registers.items }
        requires long { length plan.now.registers.items ≤ length self.old.state.items }
        ensures numbers { self.new.numbers.items ≡ with_state plan.now.registers.items self.old.state.items self.old.numbers.items }
        ensures others { self.new ≡ record self.old { numbers = self.new.numbers } }
    {
        let state = self.state.as_slice();
        passes::put_state(plan.registers.as_slice(), state, &mut self.numbers);
    }

    /// Puts the inputs into their places.
    pub fn put_inputs(&mut self, plan: &Plan, inputs: &[u128])
        requires within { AllByRecursion (IsWithin (length self.old.numbers.items)) plan.now.inputs.items }
        requires long { length inputs.now ≡ length plan.now.inputs.items }
        ensures numbers { self.new.numbers.items ≡ with_inputs plan.now.inputs.items inputs.now self.old.numbers.items }
        ensures others { self.new ≡ record self.old { numbers = self.new.numbers } }
    {
        passes::put_inputs(plan.inputs.as_slice(), inputs, &mut self.numbers);
    }

    /// Gives all leaves and nodes their values.
    pub fn settle(&mut self, net: &FlatNet, steps: &[Step])
        requires whole { IsNet net.now }
        requires stepped { IsStepped net.now steps.now }
        requires fits { FitEach (shape net.now).state (words_of self.old.state.items) }
        requires held { IsHeld net.now self.old.numbers.items }
        ensures settled { IsSettled net.now (words_of self.old.state.items) self.old.numbers.items self.new.numbers.items }
        ensures others { self.new ≡ record self.old { numbers = self.new.numbers } }
    {
        let state = self.state.as_slice();
        settle::settle(net, steps, state, &mut self.numbers);
    }

    /// Shows the outputs.
    pub fn show_outputs(&mut self, plan: &Plan)
        requires shown { AllByRecursion (IsShown self.old.numbers.items) plan.now.outputs.items }
        requires room { length self.old.outputs.items ≡ length plan.now.outputs.items }
        ensures outputs { self.new.outputs.items ≡ map (output_value self.old.numbers.items) plan.now.outputs.items }
        ensures whole { AllByRecursion IsBitVector self.new.outputs.items }
        ensures others { self.new ≡ record self.old { outputs = self.new.outputs } }
    {
        let numbers = self.numbers.as_slice();
        passes::show_outputs(plan.outputs.as_slice(), numbers, &mut self.outputs);
    }

    /// Gives each register and each pipe its word after the edges of the named clocks, and each word of an array
    /// what is written there. All numbers stay what they are before them.
    pub fn take_edges(&mut self, net: &FlatNet, plan: &Plan, named: &[usize])
        requires can { AllByRecursion (CanTake net.now self.old.numbers.items) plan.now.registers.items }
        requires before_writes { AllByRecursion (CanPipe (length self.old.state.items)) plan.now.before_writes.items }
        requires after_writes { AllByRecursion (CanPipe (length self.old.state.items)) plan.now.after_writes.items }
        requires writes { AllByRecursion (CanWrite net.now self.old.numbers.items (length self.old.state.items)) plan.now.writes.items }
        requires rising { (i j : ℕ) → i ≤ j → j < length named.now → slice_index named.now i ≤ slice_index named.now j }
        requires room { length plan.now.registers.items ≤ length self.old.state.items }
        requires whole { AllByRecursion IsBitVector self.old.state.items }
        ensures state { self.new.state.items ≡ after_edges net.now self.old.numbers.items named.now plan.now self.old.state.items }
        ensures whole { AllByRecursion IsBitVector self.new.state.items }
        ensures others { self.new ≡ record self.old { state = self.new.state } }
    {
        let numbers = self.numbers.as_slice();
        let registers = plan.registers.as_slice();
        passes::take_edges(net, registers, named, numbers, &mut self.state);
        let before_writes = plan.before_writes.as_slice();
        pipe_reads::take_words(before_writes, named, numbers, &mut self.state);
        let writes = plan.writes.as_slice();
        array_writes::write_arrays(net, writes, named, numbers, &mut self.state);
        let after_writes = plan.after_writes.as_slice();
        pipe_reads::take_words(after_writes, named, numbers, &mut self.state);
    }
}

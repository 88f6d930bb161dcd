//! The simulator of a net.

ghost use Rattle.std.specs.Prelude.{◌≡◌, ℕ, List, Option, IfOk, length, replicate};
ghost use Rattle.fir_base.specs.Ticks.{FitEach};
ghost use Rattle.fir_net.specs.working.IsNet.{IsNet};
ghost use Rattle.fir_net.specs.working.IsOrder.{IsOrder};
ghost use Rattle.fir_net.specs.working.Settled.{shape};
ghost use Rattle.fir_net.specs.working.Allows.{Allows};
ghost use Rattle.fir_tick.specs.working.Views.{numbers, widths, output_widths, IsTickOf};

use fir_base::MemoryOut;
use fir_bits::Bits;
use fir_bits::laws::has_its_type;
use fir_loop::Order;
use fir_net::FlatNet;
use fir_net::laws::{nodes_have_their_types, nodes_have_their_values};
use fir_tick::{Plan, Step, Values, array_spans, output_zeros, state_of, steps_of, zeros};
use std::alloc::Global;
use std::marker::Model;
use trace_text::{Init, Tick};

/// A net and the steps of a tick of it, with the values of its last tick, and its state.
#[derive(Drop)]
pub struct Sim {
    net: FlatNet,
    steps: Vec<Step>,
    plan: Plan,
    values: Values,
}

impl Model for Sim {
    ghost use Rattle.fir_tick.specs.working.Views.{SimView, view_of};
    ghost use Rattle.fir_sim.specs.working.Running.{IsRunning};

    ghost Value = { SimView };

    ghost view = { λ s. view_of s.net s.values.outputs.items s.values.state.items };

    ghost invariant = { λ s. IsRunning s.net s.steps.items s.plan s.values };
}

impl Sim {
    /// A simulator of the net in that state, which walks this order of the net at each tick. The outputs are 0
    /// before the first tick. Only memory can be wanting.
    pub fn new(alloc: Global, net: FlatNet, order: Order, init: &Init) -> Result<Sim, MemoryOut>
        requires whole { IsNet net }
        requires ordered { IsOrder net order }
        requires fits { FitEach (shape net).state init.now }
        ensures net { IfOk result (λ s. s.net ≡ net) }
        ensures outputs { IfOk result (λ s. numbers s.outputs ≡ replicate (length (output_widths net)) 0) }
        ensures state { IfOk result (λ s. numbers s.state ≡ init.now) }
    {
        let spans = array_spans(alloc, &net)?;
        let steps = steps_of(alloc, &net, spans.as_slice(), order.as_slice())?;
        let plan = Plan::new(alloc, &net, spans.as_slice(), order.as_slice())?;
        let values = Values {
            numbers: zeros(alloc, &net)?,
            outputs: output_zeros(alloc, plan.outputs.as_slice())?,
            state: state_of(alloc, &net, init.words())?,
        };
        Ok(Sim {
            net,
            steps,
            plan,
            values,
        })
    }

    /// Takes one tick: the outputs are then those of the tick, and the state the one after it. The clocks of
    /// outputs that are clocks are not shown. It takes no memory.
    pub fn tick(&mut self, tick: &Tick)
        requires { IsTickOf self.old.net tick.now.tick }
        ensures net { self.new.net ≡ self.old.net }
        ensures allows { (clocks : List (Option ℕ)) × Allows self.old.net (numbers self.old.state) tick.now.tick (numbers self.new.outputs) clocks (numbers self.new.state) }
    {
        self.step(tick.inputs(), tick.clocks());
    }

    /// Takes a tick of these inputs and named clocks.
    pub fn step(&mut self, inputs: &[u128], clocks: &[usize])
        requires { IsTickOf self.old.net (record { inputs = inputs.now; clocks = clocks.now }) }
        ensures net { self.new.net ≡ self.old.net }
        ensures allows { (of_outputs : List (Option ℕ)) × Allows self.old.net (numbers self.old.state) (record { inputs = inputs.now; clocks = clocks.now }) (numbers self.new.outputs) of_outputs (numbers self.new.state) }
    {
        has_its_type();
        nodes_have_their_types();
        nodes_have_their_values();
        self.values.put_state(&self.plan);
        self.values.put_inputs(&self.plan, inputs);
        self.values.settle(&self.net, self.steps.as_slice());
        self.values.show_outputs(&self.plan);
        self.values.take_edges(&self.net, &self.plan, clocks);
    }

    /// The outputs of the last tick in port order.
    pub fn outputs(&self) -> &[Bits]
        ensures value { result.now ≡ self.now.outputs }
        ensures widths { widths result.now ≡ output_widths self.now.net }
    {
        self.values.outputs.as_slice()
    }

    /// The words of the state after the last tick.
    pub fn state(&self) -> &[Bits]
        ensures value { result.now ≡ self.now.state }
        ensures widths { widths result.now ≡ (shape self.now.net).state }
    {
        self.values.state.as_slice()
    }
}

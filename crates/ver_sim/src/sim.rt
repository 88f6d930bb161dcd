//! A simulator of a tree.

ghost use Rattle.std.specs.Prelude.{◌≡◌, IfErr, IfOk, OnErr, OnOk, length, option_map};
ghost use Rattle.fir_base.specs.Ticks.{FitEach};
ghost use Rattle.fir_base.specs.Ticks.{Tick as TickOf};
ghost use Rattle.ver_ast.specs.Allows.{VAllows};
ghost use Rattle.ver_ast.specs.ClockOutputs.{clocks_shown};
ghost use Rattle.ver_ast.specs.Nets.{shape};
ghost use Rattle.ver_ast.specs.Valid.{Valid};
ghost use Rattle.ver_ast.specs.Next.{all_puts, state_after};
ghost use Rattle.ver_ast.specs.Processes.{processes};
ghost use Rattle.ver_ast.specs.Settled.{SourcesShown, Rest};
ghost use Rattle.ver_order.specs.Steps.{steps};
ghost use Rattle.ver_order.specs.ShownWords.{words_shown};
ghost use Rattle.ver_order.specs.working.Laws.{ShowValues};
ghost use Rattle.ver_sim.specs.working.Views.{shown_env, shown_outputs, store, IsTickOf};
ghost use Rattle.ver_sim.specs.working.Inputs.{inputs_put};
ghost use Rattle.ver_sim.specs.Inputs.{HaveInputs};
ghost use Rattle.ver_sim.specs.working.Tasks.{IsNotYet};
ghost use Rattle.ver_sim.specs.working.Edges.{EveryOrderLeaves};
ghost use Rattle.ver_sim.specs.working.Blocks.{IsRising};
ghost use Rattle.ver_sim.specs.working.Lacking.{lacking_place};
ghost use Rattle.ver_sim.specs.Lacking.{first_from, item_lacks};
ghost use Rattle.ver_sim.specs.working.NoValues.{no_value_of, LacksAtRest};
ghost use Rattle.ver_sim.specs.Start.{HasStart};

use crate::edge::{take_edges, take_settled_edges};
use crate::inputs::put_inputs;
use crate::lacking::first_lacking;
use crate::outputs::{first_outputs, show_outputs};
use crate::plan::Plan;
use crate::start::start_values;
use crate::steps::{settle, settle_along};
use crate::tables::Tables;
use crate::unsettled::NotYet;
use fir_base::MemoryOut;
use std::alloc::Global;
use std::marker::Model;
use trace_text::{Init, Tick};
use ver_ast::{VPlace, Verilog};
use ver_order::edges_leave_next;

/// A tree with what was found of it once, the values of its nets and the numbers of its clocks, its state, and the
/// values of its outputs.
#[derive(Drop)]
pub struct VSim {
    tree: Verilog,
    plan: Plan,
    values: Vec<u128>,
    state: Vec<u128>,
    outputs: Vec<u128>,
}

impl Model for VSim {
    ghost use Rattle.std.specs.Coded.{codes};
    ghost use Rattle.ver_ast.specs.working.AtomCodes.{atom_code};
    ghost use Rattle.ver_sim.specs.working.Views.{VSimView};
    ghost use Rattle.ver_sim.specs.working.Running.{IsRunning, AreOutputs};

    ghost Value = { VSimView };

    ghost coded = { Prim.hlevel (codes, atom_code) };

    ghost view = { λ s. record { tree = s.tree; state = s.state.items; values = s.values.items } };

    ghost invariant = { λ s. IsRunning s.tree s.plan s.values.items s.state.items × AreOutputs s.tree s.values.items s.outputs.items };
}

impl VSim {
    /// A simulator of the tree in that state. Before the first tick the nets are 0, but registers without an asynchronous
    /// block show their words. Only memory can be wanting.
    pub fn new(alloc: Global, v: Verilog, init: &Init) -> Result<VSim, MemoryOut>
        requires valid { Valid v }
        requires fits { FitEach (shape v).state init.now }
        ensures tree { IfOk result (λ s. s.tree ≡ v) }
        ensures state { IfOk result (λ s. s.state ≡ init.now) }
        ensures start { IfOk result (λ s. HasStart v (store s) (shown_env s)) }
    {
        let tables = Tables::new(alloc, &v)?;
        let plan = Plan::new(alloc, &tables, &v)?;
        let words = init.words();
        let values = start_values(alloc, &tables, &v, &plan, words)?;
        let state = Vec::from_slice(alloc, words)?;
        let outputs = first_outputs(alloc, &plan, &values)?;
        Ok(VSim {
            tree: v,
            plan,
            values,
            state,
            outputs,
        })
    }

    /// The number of processes: the assigns of nets in text order, and behind them the asynchronous blocks.
    pub fn processes(&self) -> u64
        ensures { result ≡ length (processes self.now.tree) }
    {
        self.plan.tasks.len() as u64
    }

    /// Lets the inputs have the values of a tick.
    pub fn set(&mut self, tick: &Tick)
        requires { IsTickOf self.old.tree tick.now.tick }
        ensures outputs { shown_outputs self.new ≡ shown_outputs self.old }
        ensures tree { self.new.tree ≡ self.old.tree }
        ensures state { self.new.state ≡ self.old.state }
        ensures inputs { HaveInputs self.old.tree tick.now.tick.inputs (shown_env self.old) (shown_env self.new) }
        ensures sources { SourcesShown self.new.tree self.new.state tick.now.tick (shown_env self.new) }
    {
        set_inputs(&self.plan, tick.inputs(), &mut self.values);
    }

    /// Takes a step of each process of the list, in its order and whatever it answers; a number past the last process
    /// does nothing. Tells the first process that then does not show the value of its right side
    /// (IEEE 1364-2005, 11.2 to 11.4).
    pub fn settle_by(&mut self, order: &[u64]) -> Result<(), NotYet>
        ensures tree { self.new.tree ≡ self.old.tree }
        ensures state { self.new.state ≡ self.old.state }
        ensures steps { shown_env self.new ≡ steps self.old.tree (store self.old) order.now (shown_env self.old) }
        ensures settled { OnOk result (ShowValues self.new.tree self.new.state (shown_env self.new)) }
        ensures not_yet { IfErr result (IsNotYet self.new.tree (store self.new) (shown_env self.new)) }
    {
        let settled = settle_along(&self.plan, order, &self.state, &mut self.values);
        show_outputs(&self.plan, &self.values, &mut self.outputs);
        settled
    }

    /// The place of the first item in text order that lacks a value, as the values and the words now are, at a tick of these named
    /// clocks: an assign whose right side has none, or writes at an edge of which one is past the end of its array.
    pub fn no_value(&self, tick: &Tick) -> Option<NoValue>
        requires { IsTickOf self.now.tree tick.now.tick }
        ensures { result ≡ option_map (no_value_of self.now.tree) (first_from (item_lacks self.now.tree (store self.now) tick.now.tick.clocks (shown_env self.now)) 0 self.now.tree.items) }
    {
        let place = first_place(&self.plan, &self.state, tick.clocks(), &self.values)?;
        Some(NoValue { place })
    }

    /// Takes the edge of a tick: the clocks that it names rise. Where some process does not show the value of its right
    /// side the edge is refused, all stays as it is, and the first such process is told (IEEE 1364-2005, 9.2.2, 9.7.2).
    pub fn edge(&mut self, tick: &Tick) -> Result<(), NotYet>
        requires { IsTickOf self.old.tree tick.now.tick }
        ensures outputs { shown_outputs self.new ≡ shown_outputs self.old }
        ensures tree { self.new.tree ≡ self.old.tree }
        ensures settled { OnOk result (ShowValues self.old.tree self.old.state (shown_env self.old)) }
        ensures next { OnOk result (self.new.state ≡ state_after self.old.tree self.old.state (all_puts self.old.tree tick.now.tick (shown_env self.old))) }
        ensures every_order { OnOk result (EveryOrderLeaves self.old.tree self.old.state tick.now.tick (shown_env self.old) self.new.state) }
        ensures shown { OnOk result (shown_env self.new ≡ words_shown self.old.tree (store self.new) (shown_env self.old)) }
        ensures unchanged { OnErr result (self.new ≡ self.old) }
        ensures not_yet { IfErr result (IsNotYet self.old.tree (store self.old) (shown_env self.old)) }
    {
        edges_leave_next();
        take_settled_edges(&self.plan, tick.clocks(), &mut self.values, &mut self.state)
    }

    /// Takes one tick: lets the inputs have its values, takes a step of each process behind those that drive what it
    /// reads, and takes the edge. The outputs are then those of the tick, and the state the one after it. Where an item
    /// lacks a value at rest, the place of the first is told, and the state is as before.
    pub fn tick(&mut self, tick: &Tick) -> Result<(), NoValue>
        requires { IsTickOf self.old.tree tick.now.tick }
        ensures tree { self.new.tree ≡ self.old.tree }
        ensures allows { OnOk result (VAllows self.old.tree self.old.state tick.now.tick (shown_outputs self.new) (clocks_shown self.old.tree) self.new.state) }
        ensures unchanged { OnErr result (self.new.state ≡ self.old.state) }
        ensures no_value { IfErr result (LacksAtRest self.old.tree self.old.state tick.now.tick) }
    {
        self.set(tick);
        self.rest();
        if let Some(no_value) = self.no_value(tick) {
            return Err(no_value);
        }
        self.take(tick);
        Ok(())
    }

    /// The values that the outputs of bits now have, in port order.
    pub fn outputs(&self) -> &[u128]
        ensures { result.now ≡ shown_outputs self.now }
    {
        self.outputs.as_slice()
    }

    /// The words of the state.
    pub fn state(&self) -> &[u128]
        ensures { result.now ≡ self.now.state }
    {
        self.state.as_slice()
    }

    /// Takes a step of each process, behind those that drive what it reads.
    fn rest(&mut self)
        ensures tree { self.new.tree ≡ self.old.tree }
        ensures valid { Valid self.new.tree }
        ensures state { self.new.state ≡ self.old.state }
        ensures rest { (tick : TickOf) → SourcesShown self.old.tree self.old.state tick (shown_env self.old) → Rest self.new.tree self.new.state tick (shown_env self.new) }
    {
        settle(&self.plan, &self.state, &mut self.values);
        show_outputs(&self.plan, &self.values, &mut self.outputs);
    }

    /// Takes the edge of a tick.
    fn take(&mut self, tick: &Tick)
        requires { IsTickOf self.old.tree tick.now.tick }
        ensures tree { self.new.tree ≡ self.old.tree }
        ensures outputs { shown_outputs self.new ≡ shown_outputs self.old }
        ensures next { self.new.state ≡ state_after self.old.tree self.old.state (all_puts self.old.tree tick.now.tick (shown_env self.old)) }
    {
        take_edges(&self.plan, tick.clocks(), &mut self.values, &mut self.state);
    }
}

/// The inputs take these values.
fn set_inputs(plan: &Plan, inputs: &[u128], values: &mut Vec<u128>)
    ensures { values.new.items ≡ inputs_put plan.now.inputs.items inputs.now values.old.items }
{
    put_inputs(plan.inputs.as_slice(), inputs, values.as_mut_slice());
}

/// An item that lacks a value: the place of its first word, or line 0, column 0 where no text was read.
#[derive(Clone, Copy)]
pub struct NoValue {
    pub place: VPlace,
}

/// The place of the first item that lacks a value.
fn first_place(
    plan: &Plan,
    state: &Vec<u128>,
    named: &[usize],
    values: &Vec<u128>,
) -> Option<VPlace>
    requires { IsRising named.now }
    ensures { result ≡ lacking_place state.now.items named.now values.now.items plan.now.checks.items }
{
    first_lacking(
        plan.checks.as_slice(),
        state.as_slice(),
        named,
        values.as_slice(),
    )
}

//! A simulation of a tree under way: the simulator, and the place in the trace up to which it has come.

ghost use Rattle.std.specs.Prelude.{◌≡◌, IfErr, IfOk, IfSome, OnErr, OnOk, option_map};
ghost use Rattle.trace_text.specs.Shapes.{plain};
ghost use Rattle.ver_ast.specs.Allows.{VAllows};
ghost use Rattle.ver_ast.specs.ClockOutputs.{clocks_shown};
ghost use Rattle.ver_ast.specs.Nets.{shape as shape_of_tree};
ghost use Rattle.ver_ast.specs.Valid.{Valid};
ghost use Rattle.ver_order.specs.Rounds.{process_count};
ghost use Rattle.ver_sim.specs.working.NoValues.{LacksAtRest};
ghost use Rattle.ver_sim.specs.working.Views.{shown_env, shown_outputs, IsTickOf};
ghost use Rattle.ver_runner.specs.Orders.{round_for};
ghost use Rattle.ver_runner.specs.working.Running.{Begins, CountsBy, HasMade, IsOrderOf, IsReady, Lacked, Ran, Simulated, numbered, simulated_by};
ghost use Rattle.ver_runner.specs.working.Fronts.{front_ran};

use crate::laws::Trees;
use crate::orders::round_for;
use crate::rounds::tick_in_rounds;
use crate::shown::Shown;
use fir_base::{MemoryOut, Refused};
use std::alloc::Global;
use trace_lines::laws::{lines_grow, runs_grow};
use trace_lines::{Lack, Simulation, Stop};
use trace_text::laws::trace_reads_in_steps;
use trace_text::{Shape, Tick, TraceFault, next_tick, read_init};
use ver_ast::Verilog;
use ver_order::next_has_shape;
use ver_sim::{NoValue, VSim};

/// The order of the processes for a number.
#[derive(Drop)]
pub struct Order {
    number: u32,
    round: Vec<u64>,
}

/// A simulator, the shape of its traces, room for a tick and for what its line shows, the place behind the lines that were
/// read, and how many ticks these have.
#[derive(Drop)]
pub struct VRunner {
    shape: Shape,
    sim: VSim,
    order: Option<Order>,
    tick: Tick,
    shown: Shown,
    at: u64,
    ticks: u64,
}

impl VRunner {
    /// A runner of the tree in the initial state that the trace gives, or the init line that is bad. Where a number of an
    /// order is given, the processes take their steps in rounds of that order, and each line ends with the number of rounds.
    pub fn new(
        alloc: Global,
        v: Verilog,
        shape: Shape,
        order: Option<u32>,
        with_state: bool,
        trace: &[u8],
    ) -> Result<VRunner, Refused<TraceFault>>
        requires valid { Valid v }
        requires of_tree { plain shape ≡ shape_of_tree v }
        ensures { Begins trace.now (record { tree = v; order = order; with_state = with_state; shape = shape }) result }
    {
        trace_reads_in_steps();
        let (init, at) = match read_init(alloc, trace, &shape) {
            Ok(read) => read,
            Err(refused) => return Err(refused),
        };
        let shown = Shown::new(alloc, &v, &shape, with_state)?;
        let tick = Tick::new(alloc, &shape)?;
        let sim = VSim::new(alloc, v, &init)?;
        let order = some_order(alloc, sim.processes() as usize, order)?;
        Ok(VRunner {
            shape,
            sim,
            order,
            tick,
            shown,
            at,
            ticks: 0,
        })
    }
}

impl Simulation for VRunner {
    ghost simulated = { Simulated };

    ghost of = { simulated_by };

    ghost ran = { Ran };

    ghost lacked = { Lacked };

    ghost is_ready = { IsReady };

    ghost place = { λ r. r.at };

    ghost has_made = { HasMade };

    fn step(
        &mut self,
        alloc: Global,
        trace: &[u8],
        lines: &mut Vec<u8>,
    ) -> Result<bool, Refused<Stop>> {
        trace_reads_in_steps();
        runs_grow::<Trees>();
        lines_grow();
        next_has_shape();
        let mut at = self.at;
        match next_tick(trace, &mut at, &self.shape, &mut self.tick) {
            Ok(true) => self.at = at,
            Ok(false) => return Ok(false),
            Err(fault) => return Err(Refused::Fault(Stop::BadLine(fault))),
        }
        self.ticks += 1;
        match take_tick(&mut self.sim, &self.tick, &self.order) {
            Ok(rounds) => {
                self.shown.put_line(alloc, &self.sim, rounds, lines)?;
                Ok(true)
            }
            Err(no_value) => {
                let lack = lack_of(no_value, self.ticks);
                Err(Refused::Fault(Stop::Lacking(lack)))
            }
        }
    }

    ghost is_within = { λ trace s ready. ready.place };

    ghost made_front = { front_ran };
}

/// The order of so many processes for a number, where there is one.
fn some_order(alloc: Global, count: usize, number: Option<u32>) -> Result<Option<Order>, MemoryOut>
    ensures numbered { IfOk result (λ order. option_map numbered order ≡ number) }
    ensures order { IfOk result (λ order. IfSome order (λ o. o.round.items ≡ round_for count o.number)) }
{
    match number {
        None => Ok(None),
        Some(number) => Ok(Some(Order {
            number,
            round: round_for(alloc, count, number)?,
        })),
    }
}

/// Takes a tick: in rounds of the order where there is one, and then tells their number.
fn take_tick(sim: &mut VSim, tick: &Tick, order: &Option<Order>) -> Result<Option<u64>, NoValue>
    requires valid { Valid sim.old.tree }
    requires of_tree { IsTickOf sim.old.tree tick.now.tick }
    requires order { IsOrderOf sim.old.tree order.now }
    ensures tree { sim.new.tree ≡ sim.old.tree }
    ensures allows { OnOk result (VAllows sim.old.tree sim.old.state tick.now.tick (shown_outputs sim.new) (clocks_shown sim.old.tree) sim.new.state) }
    ensures counts { IfOk result (λ counted. CountsBy sim.old.tree order.now sim.old.state tick.now.tick (shown_env sim.old) counted sim.new.state (shown_env sim.new)) }
    ensures unchanged { OnErr result (sim.new.state ≡ sim.old.state) }
    ensures no_value { IfErr result (LacksAtRest sim.old.tree sim.old.state tick.now.tick) }
{
    match order {
        None => {
            sim.tick(tick)?;
            Ok(None)
        }
        Some(order) => {
            let count = tick_in_rounds(sim, tick, order.round.as_slice())?;
            Ok(Some(count))
        }
    }
}

/// What is told of an item that lacks a value at the tick of that number, counted from 1.
fn lack_of(no_value: NoValue, tick: u64) -> Lack
    ensures { result ≡ record { line = no_value.place.line; col = no_value.place.col; tick = tick } }
{
    Lack {
        line: no_value.place.line,
        col: no_value.place.col,
        tick,
    }
}

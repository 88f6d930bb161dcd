//! A simulation under way: the simulator of a net, and the place in the trace up to which it has come.

ghost use Rattle.std.specs.Prelude.{◌≡◌, ◌<◌, List, ℕ, Bool, Ok, Some, None, true, option_map, if◌then◌else◌};
ghost use Rattle.fir_net.specs.working.IsNet.{IsNet};
ghost use Rattle.fir_net.specs.working.IsOrder.{IsOrder};
ghost use Rattle.fir_net.specs.working.Settled.{shape as shape_of_net};
ghost use Rattle.trace_text.specs.RunLines.{with_widths};
ghost use Rattle.trace_text.specs.Shapes.{plain};
ghost use Rattle.fir_tick.specs.working.Views.{numbers};
ghost use Rattle.fir_runner.specs.working.Running.{Begins};

use fir_base::Refused;
use fir_bits::Bits;
use fir_loop::Order;
use fir_net::FlatNet;
use fir_sim::Sim;
use std::alloc::Global;
use trace_lines::{Simulation, Stop};
use trace_text::laws::trace_reads_in_steps;
use trace_text::{Shape, Tick, TraceFault, next_tick, read_init, write_line};

/// A simulator, the shape of its traces, whether the state is shown, room for a tick, and the place behind the lines
/// that were read.
#[derive(Drop)]
pub struct Runner {
    shape: Shape,
    sim: Sim,
    with_state: bool,
    tick: Tick,
    at: u64,
}

impl Runner {
    /// A runner of the net, by the order, in the initial state that the trace gives, or the init line that is bad.
    pub fn new(
        alloc: Global,
        net: FlatNet,
        order: Order,
        shape: Shape,
        with_state: bool,
        trace: &[u8],
    ) -> Result<Runner, Refused<TraceFault>>
        requires whole { IsNet net }
        requires in_order { IsOrder net order }
        requires of_net { plain shape ≡ shape_of_net net }
        ensures { Begins trace.now (record { net = net; shape = shape; with_state = with_state }) result }
    {
        trace_reads_in_steps();
        let (init, at) = match read_init(alloc, trace, &shape) {
            Ok(read) => read,
            Err(refused) => return Err(refused),
        };
        let sim = Sim::new(alloc, net, order, &init)?;
        let tick = Tick::new(alloc, &shape)?;
        Ok(Runner {
            shape,
            sim,
            with_state,
            tick,
            at,
        })
    }
}

impl Simulation for Runner {
    ghost use Rattle.fir_runner.specs.working.Running.{SimulatedNet, simulated_by, Ran, IsReady, IsRunning};

    ghost simulated = { SimulatedNet };

    ghost of = { simulated_by };

    ghost ran = { Ran };

    /// Every item of a circuit has a value at every tick.
    ghost lacked = { λ net trace lack printed. ⊥ };

    ghost is_ready = { IsReady };

    ghost place = { λ r. r.at };

    ghost has_made = { IsRunning };

    fn step(
        &mut self,
        alloc: Global,
        trace: &[u8],
        lines: &mut Vec<u8>,
    ) -> Result<bool, Refused<Stop>> {
        trace_reads_in_steps();
        match next_tick(trace, &mut self.at, &self.shape, &mut self.tick) {
            Ok(true) => {}
            Ok(false) => return Ok(false),
            Err(fault) => return Err(Refused::Fault(Stop::BadLine(fault))),
        }
        self.sim.tick(&self.tick);
        write_line(
            alloc,
            self.sim.outputs(),
            shown_state(&self.sim, self.with_state),
            None,
            lines,
        )?;
        Ok(true)
    }

    ghost is_within = { λ trace r ready. ready.place };

    ghost made_front = { λ trace r printed h. record {
      init = h.init;
      ticks = h.ticks;
      said = (h.read.lines, h.read.lines_are, h.read.spelled);
      shown = h.shown;
      run = h.run;
      lines = h.lines;
    } };
}

/// The state, where it is shown.
fn shown_state(sim: &Sim, with_state: bool) -> Option<&[Bits]>
    ensures { option_map (λ s. s.now) result ≡ (if with_state then Some (with_widths (shape_of_net sim.now.net).state (numbers sim.now.state)) else None) }
{
    if with_state { Some(sim.state()) } else { None }
}

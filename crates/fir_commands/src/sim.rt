//! The command `sim`: the circuit of one file on the trace of another.

ghost use Rattle.std.specs.Prelude.{◌≡◌, ◌≤◌, ℕ, List, length};

use crate::refusal::refusal;
use fir_base::Refused;
use fir_cli::Status;
use fir_compile::{Compiled, net_of};
use fir_io::Sink;
use fir_runner::Runner;
use std::alloc::Global;
use trace_command::SimulationCommand;
use trace_lines::{Finish, put_lines};
use trace_text::Shape;

/// Prints a line for each tick of the circuit that a text spells.
#[derive(Drop)]
pub struct Sim {
    /// Whether the lines show the state too.
    pub with_state: bool,
}

/// The net of a circuit with its order, and the shape of its traces.
#[derive(Drop)]
pub struct SimNet {
    compiled: Compiled,
    shape: Shape,
}

impl SimulationCommand for Sim {
    ghost use Rattle.fir_commands.specs.Sim.{sim_meaning};
    ghost use Rattle.fir_commands.specs.working.SimNets.{IsNetOf};

    type Machine = SimNet;

    ghost says = { λ command. sim_meaning command.with_state };

    ghost is_of = { IsNetOf };

    fn status(&self) -> Status {
        Status::Refused
    }

    fn machine_of(&self, alloc: Global, text: &[u8]) -> Result<SimNet, Refused<Vec<u8>>> {
        match net_of(alloc, text) {
            Ok((compiled, shape)) => Ok(SimNet { compiled, shape }),
            Err(Refused::Fault(fault)) => Err(refusal(alloc, &fault)),
            Err(Refused::Memory) => Err(Refused::Memory),
        }
    }

    fn run<S: Sink>(&self, alloc: Global, machine: SimNet, trace: &[u8], out: &mut S) -> Finish {
        let SimNet { compiled, shape } = machine;
        match Runner::new(
            alloc,
            compiled.net,
            compiled.order,
            shape,
            self.with_state,
            trace,
        ) {
            Ok(mut runner) => put_lines(alloc, &mut runner, trace, out),
            Err(Refused::Fault(fault)) => Finish::BadLine(fault),
            Err(Refused::Memory) => Finish::NoMemory,
        }
    }

    fn fronts_begin(&self) {
        fir_runner::fronts_begin();
    }
}

//! What the command `vsim` says of a text.

use crate::machine::{Machine, machine_of};
use fir_base::Refused;
use fir_cli::Status;
use fir_io::Sink;
use std::alloc::Global;
use trace_command::SimulationCommand;
use trace_lines::{Finish, put_lines};
use ver_ast::spells_one_tree;
use ver_runner::VRunner;
use ver_runner::laws::fronts_begin;

/// The command `vsim`: whether the state is shown, and the number of an order of the processes where they have one.
#[derive(Clone, Copy)]
pub struct Vsim {
    pub with_state: bool,
    pub order: Option<u32>,
}

impl SimulationCommand for Vsim {
    ghost use Rattle.std.specs.Prelude.{◌≡◌};
    ghost use Rattle.ver_command.specs.Vsim.{vsim_meaning};
    ghost use Rattle.ver_command.specs.working.Machines.{IsMadeOf};

    type Machine = Machine;

    ghost says = { λ c. vsim_meaning c.with_state c.order };

    ghost is_of = { IsMadeOf };

    fn status(&self) -> Status {
        Status::BadVerilog
    }

    fn machine_of(&self, alloc: Global, text: &[u8]) -> Result<Machine, Refused<Vec<u8>>> {
        machine_of(alloc, text)
    }

    fn run<S: Sink>(&self, alloc: Global, machine: Machine, trace: &[u8], out: &mut S) -> Finish {
        spells_one_tree();
        let Machine { shape, tree } = machine;
        match VRunner::new(alloc, tree, shape, self.order, self.with_state, trace) {
            Ok(mut runner) => put_lines(alloc, &mut runner, trace, out),
            Err(Refused::Fault(fault)) => Finish::BadLine(fault),
            Err(Refused::Memory) => Finish::NoMemory,
        }
    }

    fn fronts_begin(&self) {
        fronts_begin();
    }
}

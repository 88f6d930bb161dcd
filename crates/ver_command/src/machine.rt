//! The tree of a text, with the shape of its traces.

ghost use Rattle.std.specs.Prelude.{◌≡◌, ◌≤◌, IfOk, length};
ghost use Rattle.ver_fault.specs.Faults.{vfault_line};
ghost use Rattle.ver_fault.specs.View.{vfault_of};
ghost use Rattle.ver_command.specs.working.Machines.{IsMachineOf, IsLineOf};

use fir_base::{MemoryOut, Refused};
use std::alloc::Global;
use trace_text::Shape;
use ver_ast::Verilog;
use ver_fault::VerFault;
use ver_read::read_verilog;
use ver_sim::shape;

/// A tree, and the shape of its traces.
#[derive(Drop)]
pub struct Machine {
    pub shape: Shape,
    pub tree: Verilog,
}

/// What the text says, or the line of its first fault.
pub fn machine_of(alloc: Global, text: &[u8]) -> Result<Machine, Refused<Vec<u8>>>
    requires { length text.now ≤ 16777216 }
    ensures { IsMachineOf text.now result }
{
    let tree = match read_verilog(alloc, text) {
        Ok(tree) => tree,
        Err(Refused::Fault(fault)) => return Err(refusal(alloc, &fault)),
        Err(Refused::Memory) => return Err(Refused::Memory),
    };
    match shape(alloc, &tree)? {
        Some(shape) => Ok(Machine { shape, tree }),
        None => unreachable!(),
    }
}

/// The line of the fault, unless memory is wanting.
fn refusal(alloc: Global, fault: &VerFault) -> Refused<Vec<u8>>
    ensures { IsLineOf fault.now result }
{
    match line_of(alloc, fault) {
        Ok(line) => Refused::Fault(line),
        Err(MemoryOut) => Refused::Memory,
    }
}

fn line_of(alloc: Global, fault: &VerFault) -> Result<Vec<u8>, MemoryOut>
    ensures { IfOk result (λ line. line.items ≡ vfault_line (vfault_of fault.now)) }
{
    let mut line = Vec::new(alloc);
    fault.put_line(alloc, &mut line)?;
    Ok(line)
}

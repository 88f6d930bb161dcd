//! The line of a fault, by which a text is refused.

ghost use Rattle.fir_ast.specs.Faults.{fault_line};
ghost use Rattle.fir_ast.specs.working.CodeFaults.{fault_of};
ghost use Rattle.fir_cli.specs.declared.status.Status.TheVariants as status;
ghost use Rattle.fir_cli.specs.working.Endings.{Complained};
ghost use Rattle.fir_commands.specs.working.Refusing.{IsRefusal};

use fir_ast::FirFault;
use fir_base::{MemoryOut, Refused};
use fir_cli::{MEMORY_LINE, Status, say};
use fir_fault_text::put_fault_line;
use fir_io::Sink;
use std::alloc::Global;

/// The line of the fault.
pub fn refusal(alloc: Global, fault: &FirFault) -> Refused<Vec<u8>>
    ensures { IsRefusal (fault_of fault.now) result }
{
    let mut line = Vec::new(alloc);
    match put_fault_line(fault, alloc, &mut line) {
        Ok(()) => Refused::Fault(line),
        Err(MemoryOut) => Refused::Memory,
    }
}

/// Puts the line of the fault of a text, and ends with `Refused` where that succeeds.
pub fn say_fault<T: Sink>(alloc: Global, err: &mut T, fault: &FirFault) -> Status
    ensures { Complained (fault_line (fault_of fault.now)) status.Refused (T.seen err.old) (T.seen err.new) result }
{
    match refusal(alloc, fault) {
        Refused::Fault(line) => say(err, line.as_slice(), Status::Refused),
        Refused::Memory => say(err, MEMORY_LINE, Status::NoMemory),
    }
}

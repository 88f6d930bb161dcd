//! Closed walks of a tree.

ghost use Rattle.std.specs.Prelude.{◌≡◌, [], IfOk};
ghost use Rattle.fir_base.specs.Lists.{Distinct};
ghost use Rattle.ver_ast.specs.Processes.{processes, process_targets};
ghost use Rattle.ver_fault.specs.View.{vfault_of};
ghost use Rattle.ver_valid.specs.working.Circles.{IsCircle};
ghost use Rattle.ver_check.specs.TreeFaults.{misfits, undriven};
ghost use Rattle.ver_loop.specs.working.Loops.{LoopsChecked};
ghost use Rattle.ver_loop.specs.Loops.{ShowsLoop};

use crate::giver::first_place;
use crate::walk::walk_of;
use fir_base::{MemoryOut, Refused};
use std::alloc::Global;
use ver_ast::Verilog;
use ver_fault::VerFault;
use ver_valid::closed_walk;

/// Refuses a tree without a fault of V03, V04, V05 and V08 for a closed walk, V06: one of what a net or a register with an
/// asynchronous reset depends on, a shortest one through its first name. It stands at the place of the item that gives
/// that name its value; where the tree has no places, at line 0, column 0. It takes time in proportion to the tree, but
/// for what look-ups take.
pub fn check_loops(alloc: Global, v: &Verilog) -> Result<(), Refused<VerFault>>
    requires misfits { misfits v.now ≡ [] }
    requires undriven { undriven v.now ≡ [] }
    ensures { LoopsChecked v.now result }
{
    match closed_walk(alloc, v)? {
        None => Ok(()),
        Some(circle) => Err(Refused::Fault(loop_fault(alloc, v, circle.as_slice())?)),
    }
}

/// The fault of a circle of processes.
fn loop_fault(alloc: Global, v: &Verilog, circle: &[usize]) -> Result<VerFault, MemoryOut>
    requires distinct { Distinct (process_targets (processes v.now)) }
    requires circle { IsCircle v.now circle.now }
    ensures { IfOk result (λ f. ShowsLoop v.now (vfault_of f)) }
{
    let walk = walk_of(alloc, v, circle)?;
    let place = first_place(alloc, v, walk.as_slice())?;
    Ok(VerFault::Loop { place, walk })
}

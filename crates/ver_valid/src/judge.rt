//! Whether a tree is valid.

ghost use Rattle.std.specs.Prelude.{◌↔◌, IfOk, IsTrue};
ghost use Rattle.ver_ast.specs.Valid.{Valid};
ghost use Rattle.ver_valid.specs.working.Judgement.{Judges};
ghost use Rattle.ver_valid.specs.working.Walks.{IsWalked};

use crate::misfit::Misfit;
use crate::ordered::has_order;
use crate::walk::Walk;
use fir_base::{MemoryOut, Refused};
use std::alloc::Global;
use ver_ast::Verilog;

/// Whether a tree is valid (IEEE 1364-2005, 3.7, 4.2, 4.9, 5.2.1, 5.4, 6.1). Only memory can be wanting.
pub fn valid(alloc: Global, v: &Verilog) -> Result<bool, MemoryOut>
    ensures { IfOk result (λ b. IsTrue b ↔ Valid v.now) }
{
    match judge(alloc, v) {
        Ok(()) => Ok(true),
        Err(Refused::Fault(_)) => Ok(false),
        Err(Refused::Memory) => Err(MemoryOut),
    }
}

fn judge(alloc: Global, v: &Verilog) -> Result<(), Refused<Misfit>>
    ensures { Judges result (Valid v.now) }
{
    all_but_order(alloc, v)?;
    if has_order(alloc, v)? {
        Ok(())
    } else {
        Err(Refused::Fault(Misfit::Circular))
    }
}

/// All that a valid tree is but an order of its processes.
fn all_but_order(alloc: Global, v: &Verilog) -> Result<(), Refused<Misfit>>
    ensures { Judges result (IsWalked v.now) }
{
    let mut walk = Walk::new(alloc);
    let ports = v.ports.as_slice();
    let items = v.items.as_slice();
    walk.take_ports(alloc, ports)?;
    walk.take_items(alloc, items)?;
    walk.all_driven(ports, items)
}

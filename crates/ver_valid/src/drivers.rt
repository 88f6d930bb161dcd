//! What drives each net of a tree.

ghost use Rattle.std.specs.Prelude.{◌≡◌, ◌++◌, IfOk, map};
ghost use Rattle.ver_ast.specs.Nets as tree;
ghost use Rattle.ver_ast.specs.Nets.{input_nets, regs, names_of};
ghost use Rattle.ver_valid.specs.working.Drivers.{driver_in, AreDrivers};
ghost use Rattle.ver_valid.specs.working.Numbered.{IsNumbering};

use crate::numbers::Numbers;
use crate::processes::{block_targets, input_names, process_targets, register_names};
use fir_base::{MemoryOut, Name};
use std::alloc::Global;
use ver_ast::{Assign, Resetting, Verilog};

/// The names of inputs, registers and asynchronous blocks, and those of processes with the numbers of the
/// processes.
pub struct Drivers {
    inputs: Numbers,
    registers: Numbers,
    blocks: Numbers,
    processes: Numbers,
}

// Not derived, so that a drop is a call, which is proved once.
impl Drop for Drivers {
    fn drop(self) {
        let Drivers {
            inputs: _,
            registers: _,
            blocks: _,
            processes: _,
        } = self;
    }
}

impl Drivers {
    /// What drives the nets of a tree with these assigns of nets and these asynchronous blocks.
    pub fn new<'a>(
        alloc: Global,
        v: &'a Verilog,
        assigns: &[&'a Assign],
        blocks: &[&'a Resetting],
    ) -> Result<Drivers, MemoryOut>
        requires assigns { map (λ a. a.now) assigns.now ≡ tree.assigns v.now }
        requires blocks { map (λ b. b.now) blocks.now ≡ tree.resets v.now }
        ensures { IfOk result (AreDrivers v.now) }
    {
        Ok(Drivers {
            inputs: inputs(alloc, v)?,
            registers: registers(alloc, v)?,
            blocks: asynchronous(alloc, blocks)?,
            processes: driving(alloc, assigns, blocks)?,
        })
    }

    /// The number of the process that drives the net: none of an input, or of a register without an asynchronous
    /// block.
    pub fn process(&self, name: &Name) -> Option<usize>
        ensures { result ≡ driver_in self.now name.now }
    {
        if self.inputs.has(name) || (self.registers.has(name) && !self.blocks.has(name)) {
            return None;
        }
        self.processes.number(name)
    }
}

fn inputs(alloc: Global, v: &Verilog) -> Result<Numbers, MemoryOut>
    ensures { IfOk result (IsNumbering (names_of (input_nets v.now))) }
{
    let names = input_names(alloc, v)?;
    Numbers::new(alloc, names.as_slice())
}

fn registers(alloc: Global, v: &Verilog) -> Result<Numbers, MemoryOut>
    ensures { IfOk result (IsNumbering (names_of (regs v.now))) }
{
    let names = register_names(alloc, v)?;
    Numbers::new(alloc, names.as_slice())
}

fn asynchronous(alloc: Global, blocks: &[&Resetting]) -> Result<Numbers, MemoryOut>
    ensures { IfOk result (IsNumbering (map (λ b. b.target) (map (λ b. b.now) blocks.now))) }
{
    let names = block_targets(alloc, blocks)?;
    Numbers::new(alloc, names.as_slice())
}

fn driving<'a>(
    alloc: Global,
    assigns: &[&'a Assign],
    blocks: &[&'a Resetting],
) -> Result<Numbers, MemoryOut>
    ensures { IfOk result (IsNumbering (tree.targets (map (λ a. a.now) assigns.now) ++ map (λ b. b.target) (map (λ b. b.now) blocks.now))) }
{
    let names = process_targets(alloc, assigns, blocks)?;
    Numbers::new(alloc, names.as_slice())
}

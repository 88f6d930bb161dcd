//! What a tree declares and drives, as lists of what stands in it.

ghost use Rattle.std.specs.Prelude.{◌≡◌, ◌++◌, IfOk, map};
ghost use Rattle.ver_ast.specs.Nets.{output_clocks, input_nets, regs, assigns, resets, targets, names_of};
ghost use Rattle.ver_ast.specs.Processes.{processes, process_targets};
ghost use Rattle.ver_valid.specs.working.Numbered.{IsNumbering};

use crate::numbers::Numbers;
use fir_base::{Direction, MemoryOut, Name};
use std::alloc::Global;
use ver_ast::{Assign, Item, Resetting, Verilog};

/// The names of the clock outputs.
fn output_clock_names(alloc: Global, v: &Verilog) -> Result<Vec<&Name>, MemoryOut>
    ensures { IfOk result (λ names. map (λ n. n.now) names.items ≡ output_clocks v.now) }
{
    let mut names = Vec::new(alloc);
    for port in v.ports.as_slice() {
        if let Direction::Output = port.direction
            && port.is_clock
        {
            names.push(&port.name)?;
        }
    }
    Ok(names)
}

/// The names of the inputs of bits.
pub fn input_names(alloc: Global, v: &Verilog) -> Result<Vec<&Name>, MemoryOut>
    ensures { IfOk result (λ names. map (λ n. n.now) names.items ≡ names_of (input_nets v.now)) }
{
    let mut names = Vec::new(alloc);
    for port in v.ports.as_slice() {
        if let Direction::Input = port.direction
            && !port.is_clock
        {
            names.push(&port.name)?;
        }
    }
    Ok(names)
}

/// The names of the registers.
pub fn register_names(alloc: Global, v: &Verilog) -> Result<Vec<&Name>, MemoryOut>
    ensures { IfOk result (λ names. map (λ n. n.now) names.items ≡ names_of (regs v.now)) }
{
    let mut names = Vec::new(alloc);
    for item in v.items.as_slice() {
        if let Item::Reg(register) = item {
            names.push(&register.name)?;
        }
    }
    Ok(names)
}

/// The assigns, without those of clock outputs.
pub fn net_assigns(alloc: Global, v: &Verilog) -> Result<Vec<&Assign>, MemoryOut>
    ensures { IfOk result (λ found. map (λ a. a.now) found.items ≡ assigns v.now) }
{
    let names = output_clock_names(alloc, v)?;
    let clocks = Numbers::new(alloc, names.as_slice())?;
    assigns_of_nets(alloc, v, &clocks)
}

/// The assigns, without those of clock outputs, whose names have numbers.
fn assigns_of_nets<'a>(
    alloc: Global,
    v: &'a Verilog,
    clocks: &Numbers,
) -> Result<Vec<&'a Assign>, MemoryOut>
    requires { IsNumbering (output_clocks v.now) clocks.now }
    ensures { IfOk result (λ found. map (λ a. a.now) found.items ≡ assigns v.now) }
{
    let mut found = Vec::new(alloc);
    for item in v.items.as_slice() {
        if let Item::Assign(assign) = item
            && !clocks.has(&assign.target)
        {
            found.push(assign)?;
        }
    }
    Ok(found)
}

/// The asynchronous blocks.
pub fn asynchronous_blocks(alloc: Global, v: &Verilog) -> Result<Vec<&Resetting>, MemoryOut>
    ensures { IfOk result (λ found. map (λ b. b.now) found.items ≡ resets v.now) }
{
    let mut found = Vec::new(alloc);
    for item in v.items.as_slice() {
        if let Item::Resetting(block) = item {
            found.push(block)?;
        }
    }
    Ok(found)
}

/// The targets of the assigns.
fn assign_targets<'a>(alloc: Global, assigns: &[&'a Assign]) -> Result<Vec<&'a Name>, MemoryOut>
    ensures { IfOk result (λ names. map (λ n. n.now) names.items ≡ targets (map (λ a. a.now) assigns.now)) }
{
    let mut names = Vec::new(alloc);
    for assign in assigns {
        names.push(&assign.target)?;
    }
    Ok(names)
}

/// The targets of the blocks.
pub fn block_targets<'a>(
    alloc: Global,
    blocks: &[&'a Resetting],
) -> Result<Vec<&'a Name>, MemoryOut>
    ensures { IfOk result (λ names. map (λ n. n.now) names.items ≡ map (λ b. b.target) (map (λ b. b.now) blocks.now)) }
{
    let mut names = Vec::new(alloc);
    for block in blocks {
        names.push(&block.target)?;
    }
    Ok(names)
}

/// The targets of the assigns, and behind them those of the blocks.
pub fn process_targets<'a>(
    alloc: Global,
    assigns: &[&'a Assign],
    blocks: &[&'a Resetting],
) -> Result<Vec<&'a Name>, MemoryOut>
    ensures { IfOk result (λ names. map (λ n. n.now) names.items ≡ targets (map (λ a. a.now) assigns.now) ++ map (λ b. b.target) (map (λ b. b.now) blocks.now)) }
{
    let mut names = assign_targets(alloc, assigns)?;
    let behind = block_targets(alloc, blocks)?;
    names.extend_from_slice(behind.as_slice())?;
    Ok(names)
}

/// The names to which the processes of a tree give values: those of the assigns of nets before those of the asynchronous
/// blocks, each in text order.
pub fn target_names(alloc: Global, v: &Verilog) -> Result<Vec<&Name>, MemoryOut>
    ensures { IfOk result (λ names. map (λ n. n.now) names.items ≡ process_targets (processes v.now)) }
{
    let assigns = net_assigns(alloc, v)?;
    let blocks = asynchronous_blocks(alloc, v)?;
    process_targets(alloc, assigns.as_slice(), blocks.as_slice())
}

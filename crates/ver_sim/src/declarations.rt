//! What a tree declares, as lists of what stands in it.

ghost use Rattle.std.specs.Prelude.{◌≡◌, ◌++◌, ◌≤◌, IfOk, OnOk, length, flat_map, map, sum_by};
ghost use Rattle.ver_ast.specs.Nets.{port_nets, item_net, nets, regs, arrays, clocks, output_clocks, reset_targets, names_of, widths_of, variables, variable_names, reg_variable};
ghost use Rattle.ver_sim.specs.working.Valued.{valued};
ghost use Rattle.ver_sim.specs.working.Spans.{spans_from};

use fir_base::{Direction, MemoryOut, Name};
use std::alloc::Global;
use ver_ast::{Item, Verilog};

/// Where the words of a register or an array stand in the state.
#[derive(Clone, Copy)]
pub struct Span {
    pub base: usize,
    pub depth: usize,
}

/// The names that have values: the nets, and behind them the clocks.
pub fn valued_names(alloc: Global, v: &Verilog) -> Result<Vec<&Name>, MemoryOut>
    ensures { IfOk result (λ names. map (λ n. n.now) names.items ≡ valued v.now) }
{
    let mut names = Vec::new(alloc);
    put_port_names(&mut names, v)?;
    put_item_names(&mut names, v)?;
    put_clock_names(&mut names, v)?;
    Ok(names)
}

fn put_port_names<'a>(names: &mut Vec<&'a Name>, v: &'a Verilog) -> Result<(), MemoryOut>
    ensures { OnOk result (map (λ n. n.now) names.new.items ≡ map (λ n. n.now) names.old.items ++ names_of (port_nets v.now)) }
{
    for port in v.ports.as_slice() {
        if !port.is_clock {
            names.push(&port.name)?;
        }
    }
    Ok(())
}

fn put_item_names<'a>(names: &mut Vec<&'a Name>, v: &'a Verilog) -> Result<(), MemoryOut>
    ensures { OnOk result (map (λ n. n.now) names.new.items ≡ map (λ n. n.now) names.old.items ++ names_of (flat_map item_net v.now.items)) }
{
    for item in v.items.as_slice() {
        match item {
            Item::Wire(net) | Item::Reg(net) => names.push(&net.name)?,
            _ => {}
        }
    }
    Ok(())
}

fn put_clock_names<'a>(names: &mut Vec<&'a Name>, v: &'a Verilog) -> Result<(), MemoryOut>
    ensures { OnOk result (map (λ n. n.now) names.new.items ≡ map (λ n. n.now) names.old.items ++ clocks v.now) }
{
    for port in v.ports.as_slice() {
        if let Direction::Input = port.direction
            && port.is_clock
        {
            names.push(&port.name)?;
        }
    }
    Ok(())
}

/// The widths of the nets in bits.
pub fn net_widths(alloc: Global, v: &Verilog) -> Result<Vec<u32>, MemoryOut>
    ensures { IfOk result (λ widths. widths.items ≡ widths_of (nets v.now)) }
{
    let mut widths = Vec::new(alloc);
    put_port_widths(&mut widths, v)?;
    put_item_widths(&mut widths, v)?;
    Ok(widths)
}

fn put_port_widths(widths: &mut Vec<u32>, v: &Verilog) -> Result<(), MemoryOut>
    ensures { OnOk result (widths.new.items ≡ widths.old.items ++ widths_of (port_nets v.now)) }
{
    for port in v.ports.as_slice() {
        if !port.is_clock {
            widths.push(port.width)?;
        }
    }
    Ok(())
}

fn put_item_widths(widths: &mut Vec<u32>, v: &Verilog) -> Result<(), MemoryOut>
    ensures { OnOk result (widths.new.items ≡ widths.old.items ++ widths_of (flat_map item_net v.now.items)) }
{
    for item in v.items.as_slice() {
        match item {
            Item::Wire(net) | Item::Reg(net) => widths.push(net.width)?,
            _ => {}
        }
    }
    Ok(())
}

/// The names of the clock outputs.
pub fn clock_output_names(alloc: Global, v: &Verilog) -> Result<Vec<&Name>, MemoryOut>
    ensures { IfOk result (λ names. map (λ n. n.now) names.items ≡ output_clocks v.now) }
{
    let mut names = Vec::new(alloc);
    for port in v.ports.as_slice() {
        if let Direction::Output = port.direction
            && port.is_clock
        {
            names.push(&port.name)?;
        }
    }
    Ok(names)
}

/// The names of the registers with an asynchronous block.
pub fn reset_names(alloc: Global, v: &Verilog) -> Result<Vec<&Name>, MemoryOut>
    ensures { IfOk result (λ names. map (λ n. n.now) names.items ≡ reset_targets v.now) }
{
    let mut names = Vec::new(alloc);
    for item in v.items.as_slice() {
        if let Item::Resetting(block) = item {
            names.push(&block.target)?;
        }
    }
    Ok(names)
}

/// The names of the registers and then of the arrays.
pub fn word_names(alloc: Global, v: &Verilog) -> Result<Vec<&Name>, MemoryOut>
    ensures { IfOk result (λ names. map (λ n. n.now) names.items ≡ variable_names (variables v.now)) }
{
    let mut names = Vec::new(alloc);
    put_register_names(&mut names, v)?;
    put_array_names(&mut names, v)?;
    Ok(names)
}

fn put_register_names<'a>(names: &mut Vec<&'a Name>, v: &'a Verilog) -> Result<(), MemoryOut>
    ensures { OnOk result (map (λ n. n.now) names.new.items ≡ map (λ n. n.now) names.old.items ++ variable_names (map reg_variable (regs v.now))) }
{
    for item in v.items.as_slice() {
        if let Item::Reg(register) = item {
            names.push(&register.name)?;
        }
    }
    Ok(())
}

fn put_array_names<'a>(names: &mut Vec<&'a Name>, v: &'a Verilog) -> Result<(), MemoryOut>
    ensures { OnOk result (map (λ n. n.now) names.new.items ≡ map (λ n. n.now) names.old.items ++ variable_names (arrays v.now)) }
{
    for item in v.items.as_slice() {
        if let Item::Array(array) = item {
            names.push(&array.name)?;
        }
    }
    Ok(())
}

/// Where the words of the registers and then of the arrays stand.
pub fn spans(alloc: Global, v: &Verilog) -> Result<Vec<Span>, MemoryOut>
    requires { sum_by (λ k. k.depth) (arrays v.now) ≤ 4194304 }
    ensures { IfOk result (λ found. found.items ≡ spans_from 0 (map reg_variable (regs v.now)) ++ spans_from (length (regs v.now)) (arrays v.now)) }
{
    let mut found = Vec::new(alloc);
    put_register_spans(&mut found, v)?;
    put_array_spans(&mut found, v)?;
    Ok(found)
}

fn put_register_spans(found: &mut Vec<Span>, v: &Verilog) -> Result<(), MemoryOut>
    ensures { OnOk result (found.new.items ≡ found.old.items ++ spans_from (length found.old.items) (map reg_variable (regs v.now))) }
{
    for item in v.items.as_slice() {
        if let Item::Reg(_) = item {
            found.push(Span {
                base: found.len(),
                depth: 1,
            })?;
        }
    }
    Ok(())
}

/// The first array stands behind one word for each of the registers, which were found before.
fn put_array_spans(found: &mut Vec<Span>, v: &Verilog) -> Result<(), MemoryOut>
    requires { sum_by (λ k. k.depth) (arrays v.now) ≤ 4194304 }
    ensures { OnOk result (found.new.items ≡ found.old.items ++ spans_from (length found.old.items) (arrays v.now)) }
{
    let mut base = found.len();
    for item in v.items.as_slice() {
        if let Item::Array(array) = item {
            let depth = array.last as usize + 1;
            found.push(Span { base, depth })?;
            base += depth;
        }
    }
    Ok(())
}

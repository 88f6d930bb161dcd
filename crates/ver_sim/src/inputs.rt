//! The values of the inputs.

ghost use Rattle.std.specs.Prelude.{◌≡◌, IfOk, OnOk, map, slice_set};
ghost use Rattle.fir_base.specs.Lists.{In};
ghost use Rattle.ver_ast.specs.declared.tree.Verilog.{Verilog as Tree};
ghost use Rattle.ver_ast.specs.Nets.{input_net, input_nets, names_of};
ghost use Rattle.ver_sim.specs.working.Inputs.{inputs_put, IsPlaceOf};
ghost use Rattle.ver_sim.specs.working.Pairs.{Appends};
ghost use Rattle.ver_sim.specs.working.Tables.{Know};
ghost use Rattle.ver_sim.specs.working.Valued.{place_among, valued};

use crate::numbers::at;
use crate::tables::Tables;
use fir_base::{Direction, MemoryOut};
use std::alloc::Global;
use ver_ast::{Port, Verilog};

/// The net takes the value.
fn put_value(values: &mut [u128], net: usize, value: u128)
    ensures { values.new ≡ slice_set values.old net value }
{
    if net < values.len() {
        values[net] = value;
    }
}

/// Each of these nets takes its value, or 0 where there are too few.
pub fn put_inputs(nets: &[usize], inputs: &[u128], values: &mut [u128])
    ensures { values.new ≡ inputs_put nets.now inputs.now values.old }
{
    for (i, net) in nets.iter().enumerate() {
        put_value(values, *net, at(inputs, i));
    }
}

/// The places of the inputs, in port order.
pub fn input_places(alloc: Global, tables: &Tables, v: &Verilog) -> Result<Vec<usize>, MemoryOut>
    requires { Know v.now tables.now }
    ensures { IfOk result (λ found. found.items ≡ map (place_among (valued v.now)) (names_of (input_nets v.now))) }
{
    let mut found = Vec::new(alloc);
    put_input_places(tables, v, &mut found)?;
    Ok(found)
}

fn put_input_places(tables: &Tables, v: &Verilog, out: &mut Vec<usize>) -> Result<(), MemoryOut>
    requires { Know v.now tables.now }
    ensures { OnOk result (Appends (IsPlaceOf v.now) out.old.items out.new.items (input_nets v.now)) }
{
    for port in v.ports.as_slice() {
        put_input_place(tables, port, out)?;
    }
    Ok(())
}

/// Appends the place of a port that is an input of bits.
fn put_input_place(tables: &Tables, port: &Port, out: &mut Vec<usize>) -> Result<(), MemoryOut>
    ensures { OnOk result ((v : Tree) → Know v tables.now → In v.ports port.now → Appends (IsPlaceOf v) out.old.items out.new.items (input_net port.now.direction port.now)) }
{
    if let Direction::Input = port.direction
        && !port.is_clock
    {
        out.push(tables.place(&port.name))?;
    }
    Ok(())
}

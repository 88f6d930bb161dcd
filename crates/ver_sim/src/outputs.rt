//! The values of the outputs.

ghost use Rattle.std.specs.Prelude.{◌≡◌, IfOk, OnOk, length, map, slice_index};
ghost use Rattle.fir_base.specs.Lists.{In};
ghost use Rattle.ver_ast.specs.declared.tree.Verilog.{Verilog as Tree};
ghost use Rattle.ver_ast.specs.Nets.{output_net, output_nets, names_of};
ghost use Rattle.ver_sim.specs.working.Inputs.{IsPlaceOf};
ghost use Rattle.ver_sim.specs.working.Pairs.{Appends};
ghost use Rattle.ver_sim.specs.working.Tables.{Know};
ghost use Rattle.ver_sim.specs.working.Valued.{place_among, valued};

use crate::numbers::at;
use crate::plan::Plan;
use crate::start::zeros;
use crate::tables::Tables;
use fir_base::{Direction, MemoryOut};
use std::alloc::Global;
use ver_ast::{Port, Verilog};

/// The places of the outputs of bits, in port order.
pub fn output_places(alloc: Global, tables: &Tables, v: &Verilog) -> Result<Vec<usize>, MemoryOut>
    requires { Know v.now tables.now }
    ensures { IfOk result (λ found. found.items ≡ map (place_among (valued v.now)) (names_of (output_nets v.now))) }
{
    let mut found = Vec::new(alloc);
    put_output_places(tables, v, &mut found)?;
    Ok(found)
}

fn put_output_places(tables: &Tables, v: &Verilog, out: &mut Vec<usize>) -> Result<(), MemoryOut>
    requires { Know v.now tables.now }
    ensures { OnOk result (Appends (IsPlaceOf v.now) out.old.items out.new.items (output_nets v.now)) }
{
    for port in v.ports.as_slice() {
        put_output_place(tables, port, out)?;
    }
    Ok(())
}

/// Appends the place of a port that is an output of bits.
fn put_output_place(tables: &Tables, port: &Port, out: &mut Vec<usize>) -> Result<(), MemoryOut>
    ensures { OnOk result ((v : Tree) → Know v tables.now → In v.ports port.now → Appends (IsPlaceOf v) out.old.items out.new.items (output_net port.now.direction port.now)) }
{
    if let Direction::Output = port.direction
        && !port.is_clock
    {
        out.push(tables.place(&port.name))?;
    }
    Ok(())
}

/// The outputs where the nets have these values.
pub fn first_outputs(alloc: Global, plan: &Plan, values: &Vec<u128>) -> Result<Vec<u128>, MemoryOut>
    ensures { IfOk result (λ outputs. outputs.items ≡ map (slice_index values.now.items) plan.now.outputs.items) }
{
    let mut outputs = zeros(alloc, plan.outputs.as_slice().len())?;
    show_outputs(plan, values, &mut outputs);
    Ok(outputs)
}

/// The outputs take the values of their nets.
pub fn show_outputs(plan: &Plan, values: &Vec<u128>, outputs: &mut Vec<u128>)
    requires { length outputs.old.items ≡ length plan.now.outputs.items }
    ensures { outputs.new.items ≡ map (slice_index values.now.items) plan.now.outputs.items }
{
    show_values(
        plan.outputs.as_slice(),
        values.as_slice(),
        outputs.as_mut_slice(),
    );
}

fn show_values(places: &[usize], values: &[u128], outputs: &mut [u128])
    requires { length outputs.old ≡ length places.now }
    ensures { outputs.new ≡ map (slice_index values.now) places.now }
{
    for (i, place) in places.iter().enumerate() {
        outputs[i] = at(values, *place);
    }
}

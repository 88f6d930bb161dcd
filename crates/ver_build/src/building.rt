//! The tree of a net.

ghost use Rattle.std.specs.Prelude.{◌≡◌, IfOk};
ghost use Rattle.fir_net.specs.working.IsNet.{IsNet};
ghost use Rattle.fir_net.specs.working.WordNames.{HasWordNames};
ghost use Rattle.fir_net.specs.working.IsOrder.{IsOrder};
ghost use Rattle.fir_net.specs.working.IsWritable.{HasNoPipes, IsWritable};
ghost use Rattle.ver_build.specs.working.Built.{built};
ghost use Rattle.ver_build.specs.working.Builds.{Builds};

use crate::array_blocks::{put_array_blocks, put_arrays};
use crate::clock_outputs::put_clock_assigns;
use crate::items::{
    inners_of, ports_of, put_inner_assigns, put_output_assigns, put_regs, put_wires,
};
use crate::places::{Places, places_of};
use crate::register_blocks::put_blocks;
use fir_base::{MemoryOut, Seq};
use fir_bits::laws::has_its_type;
use fir_loop::Order;
use fir_net::laws::{nodes_have_their_types, nodes_have_their_values, ordered_has_one};
use fir_net::{FlatNet, Read};
use fir_net_names::{NameTable, names};
use std::alloc::Global;
use ver_ast::{Item, Verilog, valid_has_one_rest};

/// The tree of the net with these names and places: nets for each operation and mux, for what is read of arrays and
/// for the resets and writes that need some, an assign for each of these, each output and each clock output, and a
/// block for each register that has a reset, or that something drives on a clock, and for each array that is written on
/// one.
pub fn built_tree(
    alloc: Global,
    net: &FlatNet,
    table: &NameTable,
    places: &Places,
    order: &[Read],
) -> Result<Verilog, MemoryOut>
    ensures { IfOk result (λ v. v ≡ built net.now table.now places.now order.now) }
{
    let name = table.module_name().copy(alloc)?;
    let ports = ports_of(alloc, net, table)?;
    let items = items_of(alloc, net, table, places, order)?;
    Ok(Verilog {
        name,
        ports: Seq::from_vec(ports),
        items: Seq::from_vec(items),
        places: Seq::from_vec(Vec::new(alloc)),
    })
}

/// The items of that tree: registers, then arrays, then wires, then assigns, those of clock outputs last, then blocks.
fn items_of(
    alloc: Global,
    net: &FlatNet,
    table: &NameTable,
    places: &Places,
    order: &[Read],
) -> Result<Vec<Item>, MemoryOut>
    ensures { IfOk result (λ v. v.items ≡ (built net.now table.now places.now order.now).items) }
{
    let inners = inners_of(alloc, net, table, places, order)?;
    // A wire and an assign for each of them.
    let mut items = Vec::with_capacity(alloc, inners.len().saturating_mul(2))?;
    put_regs(alloc, &mut items, net, table)?;
    put_arrays(alloc, &mut items, net, table)?;
    put_wires(alloc, &mut items, inners.as_slice())?;
    put_inner_assigns(&mut items, inners)?;
    put_output_assigns(alloc, &mut items, net, table, places)?;
    put_clock_assigns(alloc, &mut items, net, table, places)?;
    put_blocks(alloc, &mut items, net, table, places)?;
    put_array_blocks(alloc, &mut items, net, table, places)?;
    Ok(items)
}

/// The Verilog tree of a whole net: valid, named by the table of names, arranged by kind with a block for each
/// register that has a reset or is driven on a clock, and allowing at every tick what the net allows (IEEE
/// 1364-2005, 6.1, 9.2.2, 9.4, 12.1). Only memory can be wanting.
#[tactic(auto, using(crate::proofs::Means::builds))]
pub fn build(alloc: Global, net: &FlatNet, order: &Order) -> Result<Verilog, MemoryOut>
    requires whole { IsNet net.now }
    requires words { HasWordNames net.now }
    requires writable { IsWritable net.now }
    requires no_pipes { HasNoPipes net.now }
    requires ordered { IsOrder net.now order.now }
    ensures { IfOk result (λ v. Builds net.now v) }
{
    has_its_type();
    nodes_have_their_values();
    nodes_have_their_types();
    ordered_has_one();
    valid_has_one_rest();
    let table = names(alloc, net)?;
    let places = places_of(alloc, net, &table, order.as_slice())?;
    built_tree(alloc, net, &table, &places, order.as_slice())
}

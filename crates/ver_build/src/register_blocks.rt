//! The blocks of registers (IEEE 1364-2005, 9.2.2, 9.4, 9.7.2).

ghost use Rattle.std.specs.Prelude.{◌≡◌, ◌++◌, IfOk, OnOk, option_map, map, flat_map, unwrap_or, []};
ghost use Rattle.fir_net_names.specs.working.LeafNamed.{name_at};
ghost use Rattle.ver_build.specs.Arranged.{block_item};
ghost use Rattle.ver_build.specs.working.Operands.{atom_at};
ghost use Rattle.ver_build.specs.working.Places.{clock_in, held_of};
ghost use Rattle.ver_build.specs.working.Blocks.{edge_on, leaf_block, plain_on, reset_net, resetting_on};
ghost use Rattle.ver_build.specs.working.Built.{of_leaf, word_block};

use crate::items::{clock_name, leaf_at, source_at};
use crate::places::Places;
use fir_ast::LeafId;
use fir_base::{MemoryOut, Name};
use fir_net::{FlatNet, Leaf, Read, Register, Reset, Role};
use fir_net_names::NameTable;
use std::alloc::Global;
use ver_ast::{Always, Constant, Edge, Item, Resetting};

/// The blocks of the registers that have one, in the order of the state.
pub fn put_blocks(
    alloc: Global,
    items: &mut Vec<Item>,
    net: &FlatNet,
    table: &NameTable,
    places: &Places,
) -> Result<(), MemoryOut>
    ensures { OnOk result (items.new.items ≡ items.old.items ++ flat_map (λ k. map block_item (word_block net.now table.now places.now k)) net.now.state) }
{
    let words = net.state.as_slice();
    for word in words {
        put_block(
            alloc,
            items,
            table,
            places,
            *word,
            leaf_at(net, *word),
            table.leaf(*word),
        )?;
    }
    Ok(())
}

fn put_block(
    alloc: Global,
    items: &mut Vec<Item>,
    table: &NameTable,
    places: &Places,
    number: LeafId,
    leaf: Option<&Leaf>,
    name: Option<&Name>,
) -> Result<(), MemoryOut>
    ensures { OnOk result (items.new.items ≡ items.old.items ++ map block_item (of_leaf (leaf_block table.now places.now number) (option_map (λ l. l.now) leaf.entry) (option_map (λ n. n.now) name.entry))) }
{
    let Some(leaf) = leaf else {
        return Ok(());
    };
    let (Role::Register(register), Some(name)) = (leaf.role, name) else {
        return Ok(());
    };
    let edge = edge_on(alloc, table, places, leaf.width, &register, name)?;
    match register.reset {
        Some(reset) => {
            let block = resetting_on(alloc, places, number, leaf.width, name, &reset, edge)?;
            items.push(Item::Resetting(block))?;
        }
        None => put_plain(items, edge)?,
    }
    Ok(())
}

/// The block of a register without a reset, where something drives it on a clock.
fn put_plain(items: &mut Vec<Item>, edge: Option<Edge>) -> Result<(), MemoryOut>
    ensures { OnOk result (items.new.items ≡ items.old.items ++ map block_item (plain_on edge)) }
{
    if let Some(edge) = edge {
        items.push(Item::Always(Always {
            clock: edge.clock,
            target: edge.target,
            source: edge.source,
        }))?;
    }
    Ok(())
}

/// The rising edge at which a register of that width and name takes what drives it, where something does on a
/// clock.
fn edge_on(
    alloc: Global,
    table: &NameTable,
    places: &Places,
    width: u32,
    register: &Register,
    name: &Name,
) -> Result<Option<Edge>, MemoryOut>
    ensures { IfOk result (λ e. e ≡ edge_on table.now places.now (clock_in places.now.leaves register.now.clock) width register.now.next name.now) }
{
    if let (Some(clock), Some(read)) = (places.clock(register.clock), register.next) {
        return Ok(Some(edge_of(alloc, table, places, width, clock, read, name)?));
    }
    Ok(None)
}

/// The rising edge of that clock, at which the register takes what is read.
fn edge_of(
    alloc: Global,
    table: &NameTable,
    places: &Places,
    width: u32,
    clock: LeafId,
    read: Read,
    name: &Name,
) -> Result<Edge, MemoryOut>
    ensures { IfOk result (λ e. e ≡ record { clock = unwrap_or (name_at table.now.leaves clock) []; target = name.now; source = atom_at width (held_of places.now read) }) }
{
    let clock = clock_name(alloc, table, clock)?;
    let target = name.copy(alloc)?;
    let source = source_at(alloc, places, width, read)?;
    Ok(Edge {
        clock,
        target,
        source,
    })
}

/// The block of the register with that number, width and name, which has that reset.
fn resetting_on(
    alloc: Global,
    places: &Places,
    number: LeafId,
    width: u32,
    name: &Name,
    reset: &Reset,
    edge: Option<Edge>,
) -> Result<Resetting, MemoryOut>
    ensures { IfOk result (λ b. b ≡ resetting_on places.now number width name.now reset.now edge) }
{
    let tested = reset_net(alloc, places, number, reset)?;
    let reset = tested.copy(alloc)?;
    let target = name.copy(alloc)?;
    let value = Constant {
        width,
        number: Some(places.init(number)),
    };
    Ok(Resetting {
        reset,
        tested,
        target,
        value,
        edge,
    })
}

/// The net of the reset of the register with that number.
fn reset_net(
    alloc: Global,
    places: &Places,
    number: LeafId,
    reset: &Reset,
) -> Result<Name, MemoryOut>
    ensures { IfOk result (λ n. n ≡ reset_net places.now number reset.now) }
{
    match places.bit_net(reset.condition) {
        Some(name) => name.copy(alloc),
        None => match places.own_net(number) {
            Some(name) => name.copy(alloc),
            None => Name::new(alloc, b""),
        },
    }
}

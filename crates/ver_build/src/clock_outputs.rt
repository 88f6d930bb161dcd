//! The assigns of clock outputs.

ghost use Rattle.std.specs.Prelude.{◌≡◌, ◌++◌, IfOk, OnOk, option_map};
ghost use Rattle.ver_ast.specs.declared.tree.Item.TheVariants as item;
ghost use Rattle.ver_build.specs.working.Built.{leaf_clock_assign, clock_rhs, along, given};

use crate::atoms::{constant, net};
use crate::items::clock_name;
use crate::places::Places;
use fir_ast::LeafId;
use fir_base::{MemoryOut, Name};
use fir_net::{FlatNet, Leaf, Role};
use fir_net_names::NameTable;
use std::alloc::Global;
use ver_ast::{Assign, Item, Rhs};

/// The assigns of the outputs that are clocks.
pub fn put_clock_assigns(
    alloc: Global,
    items: &mut Vec<Item>,
    net: &FlatNet,
    table: &NameTable,
    places: &Places,
) -> Result<(), MemoryOut>
    ensures { OnOk result (items.new.items ≡ items.old.items ++ along (given item.Assign (leaf_clock_assign table.now places.now)) table.now.leaves 0 net.now.leaves) }
{
    let leaves = net.leaves.as_slice();
    for (k, leaf) in leaves.iter().enumerate() {
        put_clock_assign(
            alloc,
            items,
            table,
            places,
            leaf,
            table.leaf(LeafId::new(k)),
        )?;
    }
    Ok(())
}

fn put_clock_assign(
    alloc: Global,
    items: &mut Vec<Item>,
    table: &NameTable,
    places: &Places,
    leaf: &Leaf,
    name: Option<&Name>,
) -> Result<(), MemoryOut>
    ensures { OnOk result (items.new.items ≡ items.old.items ++ given item.Assign (leaf_clock_assign table.now places.now) leaf.now (option_map (λ n. n.now) name.entry)) }
{
    match (leaf.role, name) {
        (Role::ClockOutput(driver), Some(name)) => {
            let target = name.copy(alloc)?;
            let rhs = clock_rhs(alloc, table, places.driven_clock(driver))?;
            items.push(Item::Assign(Assign { target, rhs }))?;
        }
        _ => (),
    }
    Ok(())
}

/// What a clock output shows: a clock input, or no clock.
fn clock_rhs(alloc: Global, table: &NameTable, clock: Option<LeafId>) -> Result<Rhs, MemoryOut>
    ensures { IfOk result (λ r. r ≡ clock_rhs table.now clock) }
{
    match clock {
        Some(leaf) => {
            let name = clock_name(alloc, table, leaf)?;
            Ok(Rhs::Atom(net(name)))
        }
        None => Ok(Rhs::Atom(constant(1, 0))),
    }
}

//! Where the values of leaves are.

ghost use Rattle.std.specs.Prelude.{◌≡◌, IfOk, OnOk, option_map, length};
ghost use Rattle.fir_net.specs.working.Dependence.{IsOf};
ghost use Rattle.fir_net.specs.working.IsOrder.{IsOrder};
ghost use Rattle.ver_build.specs.working.Places.{ArePlaced, placed};
ghost use Rattle.ver_build.specs.working.Walks.{IsLeafPassed};

use crate::held::{Held, own_held};
use crate::places::{NodePlace, Place, driven_clock_in, held_in, reading_in};
use fir_ast::LeafId;
use fir_base::{MemoryOut, Name};
use fir_net::{FlatNet, Leaf, Read, Role};
use fir_net_names::NameTable;
use std::alloc::Global;

/// Where the values of the leaves are, from where those of the nodes and those read of arrays are. It goes along the order, in which
/// each leaf stands behind what drives it. What the order has besides the net's leaves is passed by.
pub fn leaf_places(
    alloc: Global,
    net: &FlatNet,
    table: &NameTable,
    order: &[Read],
    nodes: &[NodePlace],
    readings: &[NodePlace],
) -> Result<Vec<Place>, MemoryOut>
    ensures { IfOk result (λ v. IsOrder net.now order.now → ArePlaced net.now table.now nodes.now readings.now v.items) }
{
    let mut places = no_places(alloc, net.leaves.as_slice())?;
    for read in order {
        pass(alloc, net, table, nodes, readings, &mut places, *read)?;
    }
    Ok(places)
}

/// Notes where a leaf is; a node is passed by.
fn pass(
    alloc: Global,
    net: &FlatNet,
    table: &NameTable,
    nodes: &[NodePlace],
    readings: &[NodePlace],
    places: &mut Vec<Place>,
    read: Read,
) -> Result<(), MemoryOut>
    ensures { OnOk result (IsOf net.now read → length places.old.items ≡ length net.now.leaves → IsLeafPassed net.now table.now nodes.now readings.now read places.old.items places.new.items) }
{
    let leaves = net.leaves.as_slice();
    match read {
        Read::Leaf(k) if k.number() < leaves.len() && k.number() < places.len() => {
            let leaf = &leaves[k.number()];
            let leaves = places.as_slice();
            let place = leaf_place(alloc, leaves, nodes, readings, k, leaf, table.leaf(k))?;
            places[k.number()] = place;
        }
        _ => (),
    }
    Ok(())
}

fn no_places(alloc: Global, leaves: &[Leaf]) -> Result<Vec<Place>, MemoryOut>
    ensures { IfOk result (λ v. length v.items ≡ length leaves.now) }
{
    let mut places = Vec::new(alloc);
    for leaf in leaves {
        let _ = leaf;
        places.push(Place::Value(Held::no_bits()))?;
    }
    Ok(places)
}

/// Where the value of a leaf is, from where those of what drives it are.
fn leaf_place(
    alloc: Global,
    leaves: &[Place],
    nodes: &[NodePlace],
    readings: &[NodePlace],
    number: LeafId,
    leaf: &Leaf,
    name: Option<&Name>,
) -> Result<Place, MemoryOut>
    ensures { IfOk result (λ p. p ≡ placed leaves.now nodes.now readings.now (option_map (λ n. n.now) name.entry) number leaf.now.signed leaf.now.width leaf.now.role) }
{
    match leaf.role {
        Role::Input | Role::Register(_) => {
            let held = own_held(alloc, leaf.signed, leaf.width, name)?;
            Ok(Place::Value(held))
        },
        Role::Output(read) | Role::Wire(read) => {
            let held = held_in(alloc, leaves, nodes, read)?;
            Ok(Place::Value(held.fit(leaf.width)))
        }
        Role::Reading(_) => Ok(Place::Value(reading_in(alloc, readings, number)?)),
        // A net that is built has none.
        Role::Pipe(_) => Ok(Place::Value(Held::no_bits())),
        Role::Clock => Ok(Place::Clock(Some(number))),
        Role::ClockOutput(driver) | Role::ClockWire(driver) => {
            Ok(Place::Clock(driven_clock_in(leaves, driver)))
        }
    }
}

//! The nets of resets.

ghost use Rattle.std.specs.Prelude.{◌≡◌, ◌+◌, ◌^◌, ◌≤◌, ◌<◌, ◌++◌, IfOk, OnOk, length, map, option_map, None};
ghost use Rattle.fir_net.specs.working.IsNet.{IsNet};
ghost use Rattle.ver_build.specs.working.Places.{AreResetNets, bit_net, held_in, leaf_needs};
ghost use Rattle.ver_build.specs.working.Walks.{HasRoom, AreKept, IsNoted, IsResetPassed};

use crate::node_places::MOST;
use crate::places::{NodePlace, Place};
use fir_ast::LeafId;
use fir_base::{MemoryOut, Name};
use fir_net::{FlatNet, Leaf, Read, Role};
use fir_net_names::{NameTable, Numbered};
use std::alloc::Global;

/// The names of the nets that resets have of their own, by the numbers of their registers, and the number behind
/// the last.
#[derive(Drop)]
pub struct ResetNets {
    pub names: Vec<Option<Name>>,
    pub last: u128,
}

/// The nets that resets have of their own; the first has the first free inner name from that number on. Where no
/// reset has one, it takes no memory.
pub fn reset_nets(
    alloc: Global,
    net: &FlatNet,
    table: &NameTable,
    leaves: &[Place],
    nodes: &[NodePlace],
    first: u128,
) -> Result<ResetNets, MemoryOut>
    requires { first ≤ 2 ^ 127 }
    ensures near { IfOk result (λ r. r.last ≤ 2 ^ 127) }
    ensures named { IfOk result (λ r. IsNet net.now → (a : AreResetNets net.now table.now leaves.now nodes.now first r.names.items) × (a.last ≡ r.last)) }
{
    let words = net.state.as_slice();
    let mut names = Vec::new(alloc);
    let mut from = first;
    for word in words {
        if from > MOST {
            return Err(MemoryOut);
        }
        from = pass(alloc, net, table, leaves, nodes, &mut names, *word, from)?;
    }
    Ok(ResetNets { names, last: from })
}

/// Notes the name of the net of a word's reset, where it has one of its own: the first free inner name from that
/// number on; and returns the number behind it.
fn pass(
    alloc: Global,
    net: &FlatNet,
    table: &NameTable,
    leaves: &[Place],
    nodes: &[NodePlace],
    names: &mut Vec<Option<Name>>,
    word: LeafId,
    from: u128,
) -> Result<u128, MemoryOut>
    requires { from ≤ 2 ^ 126 }
    ensures near { IfOk result (λ to. to ≤ from + 2 ^ 63) }
    ensures passed { IfOk result (λ to. IsResetPassed net.now table.now leaves.now nodes.now word from names.old.items names.new.items to) }
{
    if !needs_net(leaves, nodes, net.leaves.as_slice().get(word.number())) {
        return Ok(from);
    }
    let Numbered { name, number } = table.inner(alloc, from)?;
    put_name(names, net.leaves.as_slice(), word, name)?;
    Ok(number + 1)
}

/// Whether a register has a reset whose condition is not all of a net of one bit.
fn needs_net(leaves: &[Place], nodes: &[NodePlace], leaf: Option<&Leaf>) -> bool
    ensures { result ≡ leaf_needs leaves.now nodes.now (option_map (λ l. l.now) leaf.entry) }
{
    let Some(leaf) = leaf else {
        return false;
    };
    let Role::Register(register) = leaf.role else {
        return false;
    };
    match register.reset {
        Some(reset) => bit_net_in(leaves, nodes, reset.condition).is_none(),
        None => false,
    }
}

/// The net of one bit that a read is all of.
pub fn bit_net_in<'a>(leaves: &'a [Place], nodes: &'a [NodePlace], read: Read) -> Option<&'a Name>
    ensures { option_map (λ n. n.now) result ≡ bit_net (held_in leaves.now nodes.now read).source }
{
    match read {
        Read::Leaf(k) => match leaves.get(k.number()) {
            Some(Place::Value(held)) => held.source.bit_net(),
            _ => None,
        },
        Read::Node(k) => match nodes.get(k.number()) {
            Some(place) => place.held.source.bit_net(),
            None => None,
        },
    }
}

/// Notes the name of a leaf, in a list with an entry for each leaf, which is made with the first name.
fn put_name(
    names: &mut Vec<Option<Name>>,
    leaves: &[Leaf],
    leaf: LeafId,
    name: Name,
) -> Result<(), MemoryOut>
    ensures { OnOk result (HasRoom leaves.now names.old.items → leaf < length leaves.now → IsNoted leaves.now leaf name names.old.items names.new.items) }
{
    make_room(names, leaves)?;
    if leaf.number() < names.len() {
        names[leaf.number()] = Some(name);
    }
    Ok(())
}

/// Makes the list have an entry for each leaf.
fn make_room(names: &mut Vec<Option<Name>>, leaves: &[Leaf]) -> Result<(), MemoryOut>
    ensures { OnOk result (HasRoom leaves.now names.old.items → AreKept leaves.now names.old.items names.new.items) }
{
    if !names.is_empty() {
        return Ok(());
    }
    put_none(names, leaves)?;
    Ok(())
}

/// Puts an entry for each leaf.
fn put_none(names: &mut Vec<Option<Name>>, leaves: &[Leaf]) -> Result<(), MemoryOut>
    ensures { OnOk result (names.new.items ≡ names.old.items ++ map (λ l. None) leaves.now) }
{
    for leaf in leaves {
        let _ = leaf;
        names.push(None)?;
    }
    Ok(())
}

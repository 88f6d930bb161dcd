//! Where the values of nodes are, and those that leaves read of arrays.

ghost use Rattle.std.specs.Prelude.{◌≡◌, ◌+◌, ◌*◌, ◌^◌, ◌≤◌, ◌<◌, ◌++◌, IfOk, OnOk, [], length, map, slice_get};
ghost use Rattle.fir_net.specs.working.Dependence.{IsOf};
ghost use Rattle.fir_net.specs.working.IsOrder.{IsOrder};
ghost use Rattle.ver_build.specs.working.Texts.{helper_count};
ghost use Rattle.ver_build.specs.working.ArrayTexts.{reading_count};
ghost use Rattle.ver_build.specs.working.Places.{AreNodePlaces, nowhere, read_width};
ghost use Rattle.ver_build.specs.working.Walks.{AreHelpers, ArePlacesKept, HasRoomFor, IsLeafRead, IsNodePassed, IsNumbered, IsOwnPlace, IsPlaceNoted, IsReadPassed};
ghost use Rattle.fir_net.specs.working.Arrays.{words_of};

use crate::array_texts::{always_within, read_width, words_of};
use crate::held::{Held, held_literal, own_held};
use crate::places::NodePlace;
use fir_ast::{LeafId, NodeId};
use fir_base::{MemoryOut, Name, Seq};
use fir_bits::PrimOp;
use fir_net::{ArrayRead, FlatNet, Leaf, Node, Read, Role};
use fir_net_names::{NameTable, Numbered};
use std::alloc::Global;

/// Inner nets have numbers below this, as memory holds no more names.
pub const MOST: u128 = 1 << 126;

/// Where the values of nodes are, by their numbers, and those that leaves read of arrays, by the numbers of the
/// leaves, which are none where no leaf reads one; and the number behind the last name of their nets.
#[derive(Drop)]
pub struct NodePlaces {
    pub nodes: Vec<NodePlace>,
    pub readings: Vec<NodePlace>,
    pub last: u128,
}

/// Where the values of the nodes are, and those that leaves read of arrays. Each with bits has a net, what needs
/// more has these before it, and all have the inner names in the order. What the order has besides them is passed
/// by.
pub fn node_places(
    alloc: Global,
    net: &FlatNet,
    table: &NameTable,
    order: &[Read],
) -> Result<NodePlaces, MemoryOut>
    ensures near { IfOk result (λ r. r.last ≤ 2 ^ 127) }
    ensures placed { IfOk result (λ r. IsOrder net.now order.now → AreNodePlaces net.now table.now order.now r.nodes.items r.readings.items r.last) }
{
    let mut nodes = no_places(alloc, net.nodes.as_slice())?;
    let mut readings = Vec::new(alloc);
    let mut last = 0;
    for read in order {
        if last > MOST {
            return Err(MemoryOut);
        }
        last = pass(alloc, net, table, &mut nodes, &mut readings, *read, last)?;
    }
    Ok(NodePlaces {
        nodes,
        readings,
        last,
    })
}

/// Notes where a node is, or what a leaf reads of an array, whose nets get the first free inner names from that
/// number on, and returns the number behind them; another leaf is passed by.
fn pass(
    alloc: Global,
    net: &FlatNet,
    table: &NameTable,
    nodes: &mut Vec<NodePlace>,
    readings: &mut Vec<NodePlace>,
    read: Read,
    from: u128,
) -> Result<u128, MemoryOut>
    requires { from ≤ 2 ^ 126 }
    ensures near { IfOk result (λ to. to ≤ from + 5 * 2 ^ 63) }
    ensures passed { IfOk result (λ to. IsOf net.now read → length nodes.old.items ≡ length net.now.nodes
        → IsReadPassed net.now table.now read from nodes.old.items nodes.new.items readings.old.items readings.new.items to) }
{
    match read {
        Read::Node(k) => pass_node(alloc, net, table, nodes, k, from),
        Read::Leaf(k) => pass_leaf(alloc, net, table, readings, k, from),
    }
}

/// Notes where a node is.
fn pass_node(
    alloc: Global,
    net: &FlatNet,
    table: &NameTable,
    places: &mut Vec<NodePlace>,
    node: NodeId,
    from: u128,
) -> Result<u128, MemoryOut>
    requires { from ≤ 2 ^ 126 }
    ensures near { IfOk result (λ to. to ≤ from + 5 * 2 ^ 63) }
    ensures passed { IfOk result (λ to. node < length net.now.nodes → length places.old.items ≡ length net.now.nodes
        → IsNodePassed net.now table.now node from places.old.items places.new.items to) }
{
    let nodes = net.nodes.as_slice();
    let number = node.number();
    if number < nodes.len() && number < places.len() {
        let (place, next) = node_place(alloc, table, &nodes[number], from)?;
        places[number] = place;
        Ok(next)
    } else {
        Ok(from)
    }
}

/// Notes where a leaf has what it reads of an array.
fn pass_leaf(
    alloc: Global,
    net: &FlatNet,
    table: &NameTable,
    places: &mut Vec<NodePlace>,
    number: LeafId,
    from: u128,
) -> Result<u128, MemoryOut>
    requires { from ≤ 2 ^ 126 }
    ensures near { IfOk result (λ to. to ≤ from + 5 * 2 ^ 63) }
    ensures passed { IfOk result (λ to. IsLeafRead net.now table.now number (slice_get net.now.leaves number) from places.old.items places.new.items to) }
{
    let leaves = net.leaves.as_slice();
    let Some(leaf) = leaves.get(number.number()) else {
        return Ok(from);
    };
    let Role::Reading(read) = leaf.role else {
        return Ok(from);
    };
    let count = reading_count(net, &read);
    let (place, next) = own_place(alloc, table, count, leaf.signed, leaf.width, from)?;
    put_place(alloc, places, leaves, number, place)?;
    Ok(next)
}

/// How many nets a read of an array has before its own.
fn reading_count(net: &FlatNet, read: &ArrayRead) -> usize
    ensures count { result ≡ reading_count (read_width net.now read.now.address) (words_of net.now.arrays read.now.array) }
    ensures few { result ≤ 4 }
{
    if always_within(read_width(net, read.address), words_of(net, read.array)) {
        1
    } else {
        4
    }
}

/// Notes the place of a leaf, in a list with an entry for each leaf, which is made with the first place.
fn put_place(
    alloc: Global,
    places: &mut Vec<NodePlace>,
    leaves: &[Leaf],
    leaf: LeafId,
    place: NodePlace,
) -> Result<(), MemoryOut>
    ensures { OnOk result (HasRoomFor leaves.now places.old.items → leaf < length leaves.now → IsPlaceNoted leaves.now leaf place places.old.items places.new.items) }
{
    make_room(alloc, places, leaves)?;
    if leaf.number() < places.len() {
        places[leaf.number()] = place;
    }
    Ok(())
}

/// Makes the list have an entry for each leaf.
fn make_room(alloc: Global, places: &mut Vec<NodePlace>, leaves: &[Leaf]) -> Result<(), MemoryOut>
    ensures { OnOk result (HasRoomFor leaves.now places.old.items → ArePlacesKept leaves.now places.old.items places.new.items) }
{
    if !places.is_empty() {
        return Ok(());
    }
    put_nowhere(alloc, places, leaves)?;
    Ok(())
}

/// Puts an entry for each leaf.
fn put_nowhere(alloc: Global, places: &mut Vec<NodePlace>, leaves: &[Leaf]) -> Result<(), MemoryOut>
    ensures { OnOk result (places.new.items ≡ places.old.items ++ map (λ l. nowhere) leaves.now) }
{
    for leaf in leaves {
        let _ = leaf;
        places.push(without_helpers(alloc, Held::no_bits()))?;
    }
    Ok(())
}

fn no_places(alloc: Global, nodes: &[Node]) -> Result<Vec<NodePlace>, MemoryOut>
    ensures { IfOk result (λ v. length v.items ≡ length nodes.now) }
{
    let mut places = Vec::with_capacity(alloc, nodes.len())?;
    for node in nodes {
        let _ = node;
        places.push(without_helpers(alloc, Held::no_bits()))?;
    }
    Ok(places)
}

fn without_helpers(alloc: Global, held: Held) -> NodePlace
    ensures { result ≡ record { held = held; helpers = [] } }
{
    NodePlace {
        held,
        helpers: Seq::from_vec(Vec::new(alloc)),
    }
}

/// Where the value of a node is, whose nets get the first free inner names from that number on; and the
/// number behind them.
fn node_place(
    alloc: Global,
    table: &NameTable,
    node: &Node,
    from: u128,
) -> Result<(NodePlace, u128), MemoryOut>
    requires { from ≤ 2 ^ 126 }
    ensures { IfOk result (λ r. IsNumbered table.now node.now from r.0 r.1) }
{
    match node {
        Node::Literal(value) => Ok((without_helpers(alloc, held_literal(value)), from)),
        Node::Operation(o) => own_place(alloc, table, helper_count(o.op), o.signed, o.width, from),
        Node::Mux(m) => own_place(alloc, table, 0, m.signed, m.width, from),
    }
}

/// Where a value is that has a net of its own behind so many others, where it has bits.
fn own_place(
    alloc: Global,
    table: &NameTable,
    count: usize,
    signed: bool,
    width: u32,
    from: u128,
) -> Result<(NodePlace, u128), MemoryOut>
    requires few { count ≤ 4 }
    requires room { from ≤ 2 ^ 126 }
    ensures { IfOk result (λ r. IsOwnPlace table.now count signed width from r.0 r.1) }
{
    if width == 0 {
        return Ok((
            without_helpers(alloc, own_held(alloc, signed, 0, None)?),
            from,
        ));
    }
    let (helpers, next) = helpers(alloc, table, count, from)?;
    let Numbered { name, number } = table.inner(alloc, next)?;
    let held = Held::whole(name, signed, width);
    Ok((NodePlace { held, helpers }, number + 1))
}

/// How many nets an operation has before its own.
fn helper_count(op: PrimOp) -> usize
    ensures count { result ≡ helper_count op }
    ensures few { result ≤ 3 }
{
    match op {
        PrimOp::Div | PrimOp::Rem => 3,
        _ => 0,
    }
}

/// So many inner names from that number on, and the number behind them.
fn helpers(
    alloc: Global,
    table: &NameTable,
    count: usize,
    from: u128,
) -> Result<(Seq<Name>, u128), MemoryOut>
    requires few { count ≤ 4 }
    requires room { from ≤ 2 ^ 126 }
    ensures { IfOk result (λ r. AreHelpers table.now count from r.0 r.1) }
{
    let mut names = Vec::new(alloc);
    let mut next = from;
    for k in 0..count {
        let _ = k;
        let Numbered { name, number } = table.inner(alloc, next)?;
        names.push(name)?;
        next = number + 1;
    }
    Ok((Seq::from_vec(names), next))
}

//! The ports of the tree, its registers, its wires and their assigns, and the assigns of outputs.

ghost use Rattle.std.specs.Prelude.{◌≡◌, ◌++◌, IfOk, OnOk, option_map, map, slice_get, unwrap_or, []};
ghost use Rattle.ver_ast.specs.declared.tree.Item.TheVariants as item;
ghost use Rattle.ver_build.specs.working.Operands.{atom_at};
ghost use Rattle.fir_net_names.specs.working.LeafNamed.{name_at};
ghost use Rattle.fir_net.specs.working.Arrays.{words_of};
ghost use Rattle.ver_build.specs.working.Places.{held_of, node_at, read_width};
ghost use Rattle.ver_build.specs.working.Blocks.{leaf_net};
ghost use Rattle.ver_build.specs.working.Built.{inners, inners_at, leaf_inners, order_inners, reset_inners, read_inners, leaf_port, leaf_reg, leaf_assign, inner_wire, inner_assign, along, at_numbers, of_leaf, given};

use crate::array_blocks::put_write_inners;
use crate::array_texts::{ArrayText, read_width, reading_inners, words_of};
use crate::atoms::atom_at;
use crate::held::Source;
use crate::places::Places;
use crate::right_sides::{Inner, node_inners};
use fir_ast::{LeafId, NodeId};
use fir_base::{Direction, MemoryOut, Name};
use fir_net::{ArrayRead, FlatNet, Leaf, Read, Role};
use fir_net_names::NameTable;
use std::alloc::Global;
use ver_ast::{Assign, Atom, Item, Net, Port, Rhs};

/// The ports of the leaves that have a name.
pub fn ports_of(alloc: Global, net: &FlatNet, table: &NameTable) -> Result<Vec<Port>, MemoryOut>
    ensures { IfOk result (λ v. v.items ≡ along leaf_port table.now.leaves 0 net.now.leaves) }
{
    let leaves = net.leaves.as_slice();
    let mut ports = Vec::new(alloc);
    for (k, leaf) in leaves.iter().enumerate() {
        put_port(alloc, &mut ports, leaf, table.leaf(LeafId::new(k)))?;
    }
    Ok(ports)
}

fn put_port(
    alloc: Global,
    ports: &mut Vec<Port>,
    leaf: &Leaf,
    name: Option<&Name>,
) -> Result<(), MemoryOut>
    ensures { OnOk result (ports.new.items ≡ ports.old.items ++ leaf_port leaf.now (option_map (λ n. n.now) name.entry)) }
{
    if let Some(name) = name {
        let (is_clock, direction, width) = match leaf.role {
            Role::Input => (false, Direction::Input, leaf.width),
            Role::Clock => (true, Direction::Input, 1),
            Role::Output(_) => (false, Direction::Output, leaf.width),
            Role::ClockOutput(_) => (true, Direction::Output, 1),
            Role::Wire(_)
            | Role::Register(_)
            | Role::Reading(_)
            | Role::Pipe(_)
            | Role::ClockWire(_) => { return Ok(()) }
        };
        ports.push(Port {
            is_clock,
            direction,
            width,
            name: name.copy(alloc)?,
        })?;
    }
    Ok(())
}

/// The registers that are the words of the state, in their order.
pub fn put_regs(
    alloc: Global,
    items: &mut Vec<Item>,
    net: &FlatNet,
    table: &NameTable,
) -> Result<(), MemoryOut>
    ensures { OnOk result (items.new.items ≡ items.old.items ++ at_numbers (given item.Reg leaf_reg) table.now.leaves net.now.leaves net.now.state) }
{
    let words = net.state.as_slice();
    for word in words {
        put_reg(alloc, items, leaf_at(net, *word), table.leaf(*word))?;
    }
    Ok(())
}

fn put_reg(
    alloc: Global,
    items: &mut Vec<Item>,
    leaf: Option<&Leaf>,
    name: Option<&Name>,
) -> Result<(), MemoryOut>
    ensures { OnOk result (items.new.items ≡ items.old.items ++ of_leaf (given item.Reg leaf_reg) (option_map (λ l. l.now) leaf.entry) (option_map (λ n. n.now) name.entry)) }
{
    let Some(leaf) = leaf else {
        return Ok(());
    };
    match (leaf.role, name) {
        (Role::Register(_), Some(name)) => items.push(Item::Reg(Net {
            width: leaf.width,
            name: name.copy(alloc)?,
        }))?,
        _ => (),
    }
    Ok(())
}

/// The leaf of a number.
pub fn leaf_at(net: &FlatNet, number: LeafId) -> Option<&Leaf>
    ensures { option_map (λ l. l.now) result ≡ slice_get net.now.leaves number }
{
    net.leaves.as_slice().get(number.number())
}

/// The inner nets: those of nodes and of what is read of arrays, in the order, then those of resets, and then those
/// of writes.
pub fn inners_of(
    alloc: Global,
    net: &FlatNet,
    table: &NameTable,
    places: &Places,
    order: &[Read],
) -> Result<Vec<Inner>, MemoryOut>
    ensures { IfOk result (λ v. v.items ≡ inners net.now table.now places.now order.now) }
{
    let mut inners = order_inners(alloc, net, table, places, order)?;
    put_reset_inners(alloc, &mut inners, net, places)?;
    put_write_inners(alloc, &mut inners, net, places)?;
    Ok(inners)
}

/// The inner nets of all nodes and of all that is read of arrays, in the order.
fn order_inners(
    alloc: Global,
    net: &FlatNet,
    table: &NameTable,
    places: &Places,
    order: &[Read],
) -> Result<Vec<Inner>, MemoryOut>
    ensures { IfOk result (λ v. v.items ≡ order_inners net.now table.now places.now order.now) }
{
    let mut inners = Vec::with_capacity(alloc, order.len())?;
    for read in order {
        let mut more = read_inners(alloc, net, table, places, *read)?;
        inners.append(&mut more)?;
    }
    Ok(inners)
}

/// The inner nets of a node, or of what a leaf reads of an array.
fn read_inners(
    alloc: Global,
    net: &FlatNet,
    table: &NameTable,
    places: &Places,
    read: Read,
) -> Result<Vec<Inner>, MemoryOut>
    ensures { IfOk result (λ v. v.items ≡ read_inners net.now table.now places.now read) }
{
    match read {
        Read::Leaf(k) => leaf_inners(alloc, net, table, places, k),
        Read::Node(k) => inners_at(alloc, net, places, k),
    }
}

/// The inner nets of a node.
fn inners_at(
    alloc: Global,
    net: &FlatNet,
    places: &Places,
    node: NodeId,
) -> Result<Vec<Inner>, MemoryOut>
    ensures { IfOk result (λ v. v.items ≡ inners_at places.now (slice_get net.now.nodes node) (node_at places.now.nodes node)) }
{
    let (Some(place), Some(node)) = (places.node(node), net.nodes.as_slice().get(node.number()))
    else {
        return Ok(Vec::new(alloc));
    };
    match &place.held.source {
        Source::Number(_) => Ok(Vec::new(alloc)),
        Source::Net(part) => node_inners(alloc, places, node, place.helpers.as_slice(), &part.name),
    }
}

/// The inner nets of what a leaf reads of an array.
fn leaf_inners(
    alloc: Global,
    net: &FlatNet,
    table: &NameTable,
    places: &Places,
    number: LeafId,
) -> Result<Vec<Inner>, MemoryOut>
    ensures { IfOk result (λ v. v.items ≡ leaf_inners net.now table.now places.now (slice_get net.now.leaves number) (node_at places.now.readings number)) }
{
    let (Some(place), Some(leaf)) = (places.reading(number), leaf_at(net, number)) else {
        return Ok(Vec::new(alloc));
    };
    let (Role::Reading(read), Source::Net(part)) = (leaf.role, &place.held.source) else {
        return Ok(Vec::new(alloc));
    };
    let text = array_text(alloc, net, table, places, leaf.width, &read)?;
    reading_inners(alloc, text, place.helpers.as_slice(), &part.name)
}

/// A read of an array, whose words are that wide.
fn array_text(
    alloc: Global,
    net: &FlatNet,
    table: &NameTable,
    places: &Places,
    width: u32,
    read: &ArrayRead,
) -> Result<ArrayText, MemoryOut>
    ensures { IfOk result (λ r. r ≡ record {
      array = unwrap_or (name_at table.now.arrays read.now.array) [];
      words = words_of net.now.arrays read.now.array;
      width = width;
      address_width = read_width net.now read.now.address;
      address = held_of places.now read.now.address;
      enable = held_of places.now read.now.enable;
    }) }
{
    let array = array_name(alloc, table, read.array)?;
    let address = places.held(alloc, read.address)?;
    let enable = places.held(alloc, read.enable)?;
    Ok(ArrayText {
        array,
        words: words_of(net, read.array),
        width,
        address_width: read_width(net, read.address),
        address,
        enable,
    })
}

/// The name of an array; one that has bits has one in a whole net.
fn array_name(alloc: Global, table: &NameTable, array: usize) -> Result<Name, MemoryOut>
    ensures { IfOk result (λ n. n ≡ unwrap_or (name_at table.now.arrays array) []) }
{
    match table.array(array) {
        Some(name) => name.copy(alloc),
        None => Name::new(alloc, b""),
    }
}

/// The nets that resets have of their own, in the order of the state.
fn put_reset_inners(
    alloc: Global,
    inners: &mut Vec<Inner>,
    net: &FlatNet,
    places: &Places,
) -> Result<(), MemoryOut>
    ensures { OnOk result (inners.new.items ≡ inners.old.items ++ reset_inners net.now places.now) }
{
    let words = net.state.as_slice();
    for word in words {
        put_reset_inner(
            alloc,
            inners,
            places,
            leaf_at(net, *word),
            places.own_net(*word),
        )?;
    }
    Ok(())
}

fn put_reset_inner(
    alloc: Global,
    inners: &mut Vec<Inner>,
    places: &Places,
    leaf: Option<&Leaf>,
    name: Option<&Name>,
) -> Result<(), MemoryOut>
    ensures { OnOk result (inners.new.items ≡ inners.old.items ++ of_leaf (leaf_net places.now) (option_map (λ l. l.now) leaf.entry) (option_map (λ n. n.now) name.entry)) }
{
    let (Some(leaf), Some(name)) = (leaf, name) else {
        return Ok(());
    };
    let Role::Register(register) = leaf.role else {
        return Ok(());
    };
    if let Some(reset) = register.reset {
        let name = name.copy(alloc)?;
        let rhs = Rhs::Atom(source_at(alloc, places, 1, reset.condition)?);
        inners.push(Inner {
            name,
            width: 1,
            rhs,
        })?;
    }
    Ok(())
}

/// The wires of the inner nets.
pub fn put_wires(alloc: Global, items: &mut Vec<Item>, inners: &[Inner]) -> Result<(), MemoryOut>
    ensures { OnOk result (items.new.items ≡ items.old.items ++ map (λ i. item.Wire (inner_wire i)) inners.now) }
{
    for inner in inners {
        items.push(Item::Wire(Net {
            width: inner.width,
            name: inner.name.copy(alloc)?,
        }))?;
    }
    Ok(())
}

/// The assigns of the inner nets.
pub fn put_inner_assigns(items: &mut Vec<Item>, inners: Vec<Inner>) -> Result<(), MemoryOut>
    ensures { OnOk result (items.new.items ≡ items.old.items ++ map (λ i. item.Assign (inner_assign i)) inners.items) }
{
    for inner in inners {
        let (target, rhs) = (inner.name, inner.rhs);
        items.push(Item::Assign(Assign { target, rhs }))?;
    }
    Ok(())
}

/// The assigns of the outputs that have a name.
pub fn put_output_assigns(
    alloc: Global,
    items: &mut Vec<Item>,
    net: &FlatNet,
    table: &NameTable,
    places: &Places,
) -> Result<(), MemoryOut>
    ensures { OnOk result (items.new.items ≡ items.old.items ++ along (given item.Assign (leaf_assign places.now)) table.now.leaves 0 net.now.leaves) }
{
    let leaves = net.leaves.as_slice();
    for (k, leaf) in leaves.iter().enumerate() {
        put_output_assign(alloc, items, places, leaf, table.leaf(LeafId::new(k)))?;
    }
    Ok(())
}

fn put_output_assign(
    alloc: Global,
    items: &mut Vec<Item>,
    places: &Places,
    leaf: &Leaf,
    name: Option<&Name>,
) -> Result<(), MemoryOut>
    ensures { OnOk result (items.new.items ≡ items.old.items ++ given item.Assign (leaf_assign places.now) leaf.now (option_map (λ n. n.now) name.entry)) }
{
    match (leaf.role, name) {
        (Role::Output(read), Some(name)) => {
            let target = name.copy(alloc)?;
            let rhs = Rhs::Atom(source_at(alloc, places, leaf.width, read)?);
            items.push(Item::Assign(Assign { target, rhs }))?;
        }
        _ => (),
    }
    Ok(())
}

/// What is read, at that width.
pub fn source_at(alloc: Global, places: &Places, width: u32, read: Read) -> Result<Atom, MemoryOut>
    ensures { IfOk result (λ a. a ≡ atom_at width (held_of places.now read)) }
{
    atom_at(alloc, width, places.held(alloc, read)?)
}

/// The name of a clock's leaf; a whole net has one for each clock input.
pub fn clock_name(alloc: Global, table: &NameTable, clock: LeafId) -> Result<Name, MemoryOut>
    ensures { IfOk result (λ n. n ≡ unwrap_or (name_at table.now.leaves clock) []) }
{
    match table.leaf(clock) {
        Some(name) => name.copy(alloc),
        None => Name::new(alloc, b""),
    }
}

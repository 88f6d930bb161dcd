//! Where all values of a net are.

ghost use Rattle.std.specs.Prelude.{◌≡◌, IfOk, option_map, slice_get};
ghost use Rattle.fir_net.specs.working.IsOrder.{IsOrder};
ghost use Rattle.fir_net.specs.working.IsNet.{IsNet};
ghost use Rattle.fir_net_names.specs.working.LeafNamed.{name_at};
ghost use Rattle.fir_inits.specs.working.InitValues.{init_at};
ghost use Rattle.ver_build.specs.working.Places.{IsPlaces, bit_net, guard_at, node_at, held_in, held_of, clock_in, driven_clock_in};

use crate::held::Held;
use crate::leaf_places::leaf_places;
use crate::node_places::{NodePlaces, node_places};
use crate::reset_nets::{ResetNets, bit_net_in, reset_nets};
use crate::write_guards::write_guards;
use fir_ast::{LeafId, NodeId};
use fir_base::{MemoryOut, Name, Seq};
use fir_inits::{InitValues, init_values};
use fir_net::{FlatNet, Read};
use fir_net_names::NameTable;
use std::alloc::Global;

/// Where the value of a leaf is, or which clock input a leaf of a clock is.
#[derive(Drop)]
pub enum Place {
    Value(Held),
    Clock(Option<LeafId>),
}

/// Where the value of a node is, or what a leaf reads of an array, and the names of the nets that it has before its own.
#[derive(Drop)]
pub struct NodePlace {
    pub held: Held,
    pub helpers: Seq<Name>,
}

/// The nets of a write at an address that may be past the end: whether it is within, and whether something is
/// written then.
#[derive(Drop)]
pub struct Guard {
    pub within: Name,
    pub written: Name,
}

/// Where the values of all leaves and nodes are, by their numbers, and what leaves read of arrays. And for the
/// registers with a reset, by their numbers, the nets that resets have of their own, where some have, and what the
/// registers show while their resets are 1; and for the arrays, by their numbers, the nets of their writes.
#[derive(Drop)]
pub struct Places {
    leaves: Seq<Place>,
    nodes: Seq<NodePlace>,
    readings: Seq<NodePlace>,
    resets: Seq<Option<Name>>,
    guards: Seq<Seq<Option<Guard>>>,
    inits: InitValues,
}

impl Places {
    /// Where the value of a read is.
    pub fn held(&self, alloc: Global, read: Read) -> Result<Held, MemoryOut>
        ensures { IfOk result (λ h. h ≡ held_of self.now read) }
    {
        held_in(alloc, self.leaves.as_slice(), self.nodes.as_slice(), read)
    }

    /// Where the value of a node is, with the names of its nets.
    pub fn node(&self, node: NodeId) -> Option<&NodePlace>
        ensures { option_map (λ h. h.now) result ≡ slice_get self.now.nodes node }
    {
        self.nodes.as_slice().get(node.number())
    }

    /// Where what a leaf reads of an array is, with the names of its nets.
    pub fn reading(&self, leaf: LeafId) -> Option<&NodePlace>
        ensures { option_map (λ h. h.now) result ≡ slice_get self.now.readings leaf }
    {
        self.readings.as_slice().get(leaf.number())
    }

    /// The nets of a write, by the number of its array and its own.
    pub fn guard(&self, array: usize, write: usize) -> Option<&Guard>
        ensures { option_map (λ g. g.now) result ≡ guard_at self.now.guards array write }
    {
        match self.guards.as_slice().get(array) {
            Some(guards) => match guards.as_slice().get(write) {
                Some(Some(guard)) => Some(guard),
                _ => None,
            },
            None => None,
        }
    }

    /// The net of one bit that a read is all of.
    pub fn bit_net(&self, read: Read) -> Option<&Name>
        ensures { option_map (λ n. n.now) result ≡ bit_net (held_of self.now read).source }
    {
        bit_net_in(self.leaves.as_slice(), self.nodes.as_slice(), read)
    }

    /// The net that the reset of a register has of its own.
    pub fn own_net(&self, leaf: LeafId) -> Option<&Name>
        ensures { option_map (λ n. n.now) result ≡ name_at self.now.resets leaf }
    {
        match self.resets.as_slice().get(leaf.number()) {
            Some(Some(name)) => Some(name),
            _ => None,
        }
    }

    /// What a register shows while its reset is 1.
    pub fn init(&self, leaf: LeafId) -> u128
        ensures { result ≡ init_at self.now.inits leaf }
    {
        self.inits.get(leaf)
    }

    /// The clock input at which the drivers of a clock's leaf end.
    pub fn clock(&self, leaf: LeafId) -> Option<LeafId>
        ensures { result ≡ clock_in self.now.leaves leaf }
    {
        clock_in(self.leaves.as_slice(), leaf)
    }

    /// The clock input at which the drivers end that begin with this clock's leaf, or none.
    pub fn driven_clock(&self, driver: Option<LeafId>) -> Option<LeafId>
        ensures { result ≡ driven_clock_in self.now.leaves driver }
    {
        driven_clock_in(self.leaves.as_slice(), driver)
    }
}

/// Where the value of a read is, from where those of leaves and nodes are.
pub fn held_in(
    alloc: Global,
    leaves: &[Place],
    nodes: &[NodePlace],
    read: Read,
) -> Result<Held, MemoryOut>
    ensures { IfOk result (λ h. h ≡ held_in leaves.now nodes.now read) }
{
    match read {
        Read::Leaf(k) => match leaves.get(k.number()) {
            Some(Place::Value(held)) => held.copy(alloc),
            _ => Ok(Held::no_bits()),
        },
        Read::Node(k) => match nodes.get(k.number()) {
            Some(place) => place.held.copy(alloc),
            None => Ok(Held::no_bits()),
        },
    }
}

/// Where what a leaf reads of an array is.
pub fn reading_in(alloc: Global, readings: &[NodePlace], leaf: LeafId) -> Result<Held, MemoryOut>
    ensures { IfOk result (λ h. h ≡ (node_at readings.now leaf).held) }
{
    match readings.get(leaf.number()) {
        Some(place) => place.held.copy(alloc),
        None => Ok(Held::no_bits()),
    }
}

/// The clock of a leaf, from those of all.
pub fn clock_in(leaves: &[Place], leaf: LeafId) -> Option<LeafId>
    ensures { result ≡ clock_in leaves.now leaf }
{
    match leaves.get(leaf.number()) {
        Some(Place::Clock(clock)) => *clock,
        _ => None,
    }
}

/// The clock of another leaf, or none.
pub fn driven_clock_in(leaves: &[Place], driver: Option<LeafId>) -> Option<LeafId>
    ensures { result ≡ driven_clock_in leaves.now driver }
{
    match driver {
        Some(leaf) => clock_in(leaves, leaf),
        None => None,
    }
}

/// Where the values of the net are: wires and outputs where what drives them is, and each operation and mux and
/// what is read of an array in a net of its own, named in the order; then the nets of resets and those of writes,
/// named in the order of the state; and the constants of registers with a reset.
pub fn places_of(
    alloc: Global,
    net: &FlatNet,
    table: &NameTable,
    order: &[Read],
) -> Result<Places, MemoryOut>
    requires { IsNet net.now }
    ensures { IfOk result (λ p. IsOrder net.now order.now → IsPlaces net.now table.now order.now p) }
{
    let NodePlaces {
        nodes,
        readings,
        last,
    } = node_places(alloc, net, table, order)?;
    let leaves = leaf_places(
        alloc,
        net,
        table,
        order,
        nodes.as_slice(),
        readings.as_slice(),
    )?;
    let ResetNets { names, last } = reset_nets(
        alloc,
        net,
        table,
        leaves.as_slice(),
        nodes.as_slice(),
        last,
    )?;
    let guards = write_guards(alloc, net, table, leaves.as_slice(), last)?;
    let inits = init_values(alloc, net, order)?;
    Ok(Places {
        leaves: Seq::from_vec(leaves),
        nodes: Seq::from_vec(nodes),
        readings: Seq::from_vec(readings),
        resets: Seq::from_vec(names),
        guards: Seq::from_vec(guards),
        inits,
    })
}

//! The net of a whole design: each of its modules has its own net there, with its numbers moved (FIRRTL spec,
//! "Instances"). A leaf of an instance's port is a leaf of the module that holds the instance, and a leaf of the
//! instance's module: it is one leaf, to which the module gives a value that may drive it. All leaves are put first, and
//! then their values.

ghost use Rattle.std.specs.Prelude.{◌≡◌, ◌++◌, IfOk, OnOk, length, map};
ghost use Rattle.fir_flatten.specs.working.DesignNets.{MakesDesign};
ghost use Rattle.fir_flatten.specs.working.MovedNets.{node_moved};
ghost use Rattle.fir_flatten.specs.working.PutModules.{given, given_from, leaves_of, main_part, no_values, part_leaf, part_leaves, port_part, ports_of, put_copies, put_module, values_seen};

use crate::design_arrays::{DesignArray, design_arrays};
use crate::moved_roles::{moved_node, moved_role};
use crate::offsets::Offsets;
use fir_ast::Place;
use fir_base::{MemoryOut, Name};
use fir_elaborate::ModuleCopy;
use fir_leaf_circuit::{LeafModule, LeafType};
use fir_merge::Bound;
use fir_net::{Node, Read};
use fir_whens::{ModuleNet, NetReset, NetRole};
use std::alloc::Global;

/// A module of the circuit: its leaves and its net, the paths of its leaves as they are printed, which of them some
/// statement drives, and the paths of its arrays.
#[derive(Drop)]
pub struct ModulePart<'a> {
    pub part: &'a LeafModule,
    pub net: &'a ModuleNet,
    pub texts: Vec<Name>,
    pub driven: Vec<bool>,
    pub array_texts: Vec<Name>,
}

/// A leaf of the design.
#[derive(Drop)]
pub struct DesignLeaf {
    /// Its path as it is printed.
    pub path: Name,
    pub place: Place,
    pub holds: LeafType,
    /// Whether some statement drives it.
    pub is_driven: bool,
}

/// The modules of a design as one: its leaves, of which those of the main module's ports stand in front; the nodes of
/// their nets; by the numbers of the leaves what gives each its value; and their arrays.
#[derive(Drop)]
pub struct DesignNet {
    pub port_leaves: usize,
    pub leaves: Vec<DesignLeaf>,
    pub nodes: Vec<Node>,
    pub roles: Vec<NetRole>,
    pub arrays: Vec<DesignArray>,
}

/// The nodes, and what gives each leaf its value.
#[derive(Drop)]
struct Values {
    nodes: Vec<Node>,
    roles: Vec<NetRole>,
}

/// The net of the design of these copies of modules, of which the first is the main one.
pub fn design_net(
    alloc: Global,
    modules: &[ModulePart],
    copies: &[ModuleCopy],
) -> Result<DesignNet, MemoryOut>
    ensures { IfOk result (λ net. MakesDesign modules.now copies.now net) }
{
    let port_leaves = main_ports(modules, copies);
    let leaves = design_leaves(alloc, modules, copies)?;
    let Values { nodes, roles } = design_values(alloc, modules, copies, leaves.len())?;
    let arrays = design_arrays(alloc, modules, copies)?;
    Ok(DesignNet {
        port_leaves,
        leaves,
        nodes,
        roles,
        arrays,
    })
}

/// How many leaves the ports of the main module have.
fn main_ports(modules: &[ModulePart], copies: &[ModuleCopy]) -> usize
    ensures { result ≡ ports_of (main_part modules.now copies.now) }
{
    match copies.first() {
        Some(main) => match modules.get(main.module_number) {
            Some(module) => module.part.port_leaves,
            None => 0,
        },
        None => 0,
    }
}

/// The leaves: those of the main module's ports, and behind them those of each module but for its ports.
fn design_leaves(
    alloc: Global,
    modules: &[ModulePart],
    copies: &[ModuleCopy],
) -> Result<Vec<DesignLeaf>, MemoryOut>
    ensures { IfOk result (λ leaves. leaves.items ≡ leaves_of modules.now copies.now) }
{
    let mut leaves = port_leaves(alloc, modules, copies)?;
    leaves.reserve(count_inner(modules, copies))?;
    for copy in copies {
        if let Some(module) = modules.get(copy.module_number) {
            let prefix = copy.prefix.as_bytes();
            let ports = module.part.port_leaves;
            put_leaves(
                alloc,
                prefix,
                module,
                ports,
                module.part.leaves.len(),
                &mut leaves,
            )?;
        }
    }
    Ok(leaves)
}

/// How many leaves the modules have that are no ports.
fn count_inner(modules: &[ModulePart], copies: &[ModuleCopy]) -> usize {
    let mut count: usize = 0;
    for copy in copies {
        if let Some(module) = modules.get(copy.module_number) {
            let inner = module
                .part
                .leaves
                .len()
                .saturating_sub(module.part.port_leaves);
            count = count.saturating_add(inner);
        }
    }
    count
}

/// The leaves of the main module's ports.
fn port_leaves(
    alloc: Global,
    modules: &[ModulePart],
    copies: &[ModuleCopy],
) -> Result<Vec<DesignLeaf>, MemoryOut>
    ensures { IfOk result (λ leaves. leaves.items ≡ port_part (main_part modules.now copies.now)) }
{
    let mut leaves = Vec::new(alloc);
    if let Some(main) = copies.first() {
        if let Some(module) = modules.get(main.module_number) {
            put_leaves(alloc, b"", module, 0, module.part.port_leaves, &mut leaves)?;
        }
    }
    Ok(leaves)
}

/// Puts the leaves of a module from one number up to another, behind what stands before their paths.
fn put_leaves(
    alloc: Global,
    prefix: &[u8],
    module: &ModulePart,
    from: usize,
    to: usize,
    leaves: &mut Vec<DesignLeaf>,
) -> Result<(), MemoryOut>
    ensures { OnOk result (leaves.new.items ≡ leaves.old.items ++ part_leaves prefix.now «module».now from to) }
{
    leaves.reserve(to.saturating_sub(from))?;
    for leaf in from..to {
        if let Some(declared) = design_leaf(alloc, prefix, module, leaf)? {
            leaves.push(declared)?;
        }
    }
    Ok(())
}

/// The leaf of that number of a module, behind what stands before its path.
fn design_leaf(
    alloc: Global,
    prefix: &[u8],
    module: &ModulePart,
    leaf: usize,
) -> Result<Option<DesignLeaf>, MemoryOut>
    ensures { IfOk result (λ declared. declared ≡ part_leaf prefix.now «module».now leaf) }
{
    let Some(declared) = module.part.leaves.get(leaf) else {
        return Ok(None);
    };
    let Some(text) = module.texts.get(leaf) else {
        return Ok(None);
    };
    let Some(is_driven) = module.driven.get(leaf) else {
        return Ok(None);
    };
    let text = text.as_bytes();
    let mut path = Vec::with_capacity(alloc, prefix.len().saturating_add(text.len()))?;
    path.extend_from_slice(prefix)?;
    path.extend_from_slice(text)?;
    Ok(Some(DesignLeaf {
        path: Name::from_vec(path),
        place: declared.place,
        holds: declared.holds,
        is_driven: *is_driven,
    }))
}

/// The nodes of all modules, and what they give to so many leaves. Until a leaf is given a value it is an input of the
/// main module.
fn design_values(
    alloc: Global,
    modules: &[ModulePart],
    copies: &[ModuleCopy],
    count: usize,
) -> Result<Values, MemoryOut>
    ensures { IfOk result (λ values. values_seen values ≡ put_copies modules.now copies.now (no_values count)) }
{
    // The proof of the loop is else not told of the types of what a role has.
    let _none: (Option<Read>, Option<Bound>, Option<NetReset>) = (None, None, None);
    let roles = vec![in alloc; NetRole::Source; count]?;
    let mut values = Values {
        nodes: Vec::new(alloc),
        roles,
    };
    for copy in copies {
        if let Some(module) = modules.get(copy.module_number) {
            values.put(alloc, copy, module)?;
        }
    }
    Ok(values)
}

impl Values {
    /// Puts the nodes of a module, and what they give to its leaves.
    fn put(
        &mut self,
        alloc: Global,
        copy: &ModuleCopy,
        module: &ModulePart,
    ) -> Result<(), MemoryOut>
        ensures { OnOk result (values_seen self.new ≡ put_module copy.now «module».now (values_seen self.old)) }
    {
        let at = Offsets::new(copy, module.part.port_leaves, self.nodes.len());
        put_nodes(alloc, module.net.nodes.as_slice(), &at, &mut self.nodes)?;
        give_roles(&module.net.roles, &at, &mut self.roles);
        Ok(())
    }
}

/// Puts nodes of a module behind the others.
fn put_nodes(
    alloc: Global,
    nodes: &[Node],
    at: &Offsets,
    all: &mut Vec<Node>,
) -> Result<(), MemoryOut>
    ensures { OnOk result (all.new.items ≡ all.old.items ++ map (node_moved at.now) nodes.now) }
{
    all.reserve(nodes.len())?;
    for node in nodes {
        let moved = moved_node(alloc, node, at)?;
        all.push(moved)?;
    }
    Ok(())
}

/// Gives leaves that are there what gives them their values in a module.
fn give_roles(roles: &[NetRole], at: &Offsets, all: &mut [NetRole])
    ensures { all.new ≡ given_from at.now 0 roles.now all.old }
{
    for (leaf, role) in roles.iter().enumerate() {
        give(at.leaf(leaf), moved_role(*role, at), all);
    }
}

/// Gives a leaf that is there what gives it its value, unless that is outside of the module.
fn give(leaf: usize, role: NetRole, all: &mut [NetRole])
    ensures { all.new ≡ given all.old leaf role }
{
    match role {
        NetRole::Source => (),
        _ => {
            if leaf < all.len() {
                all[leaf] = role;
            }
        }
    }
}

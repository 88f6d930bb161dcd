//! A module as a net.

ghost use Rattle.std.specs.Prelude.{◌≡◌, IfOk, length, map};
ghost use Rattle.fir_drivers.specs.working.Drivers.{AreDrivers};
ghost use Rattle.fir_leaf.specs.working.NodeBlocks.{block_in};
ghost use Rattle.fir_leaf_circuit.specs.working.Seen.{HasView};
ghost use Rattle.fir_leaf_types.specs.working.TypedModules.{IsModuleTyped};
ghost use Rattle.fir_meaning.specs.working.LeafModules.{LeafModule as Viewed};
ghost use Rattle.fir_merge.specs.working.Entries.{BoundsBelow};
ghost use Rattle.fir_merge.specs.working.NodeTerms.{Grows};
ghost use Rattle.fir_whens.specs.working.CoveredModules.{depths_of};
ghost use Rattle.fir_whens.specs.working.ModuleNets.{IsNetOf, registers_of, types_of_leaves};

use crate::module::depths_of;
use crate::net_role::{NetRole, net_roles};
use fir_base::MemoryOut;
use fir_bits::{NO_TYPE, NumTy};
use fir_drivers::drivers_of;
use fir_leaf_circuit::{LeafModule, LeafRole, LeafType};
use fir_merge::{Bound, NetNodes, add_zero, lower_nodes};
use std::alloc::Global;

/// The nodes of a module, and by their numbers what gives each of its leaves its value.
#[derive(Drop)]
pub struct ModuleNet {
    pub nodes: NetNodes,
    pub roles: Vec<NetRole>,
}

/// The net of a module: one driver in the place of all statements that drive a leaf, and conditions in the place of
/// dynamic indices (FIRRTL spec, "Last Connect Semantics", "Conditional Last Connect Semantics", "Sub-accesses").
pub fn module_net(alloc: Global, part: &LeafModule) -> Result<ModuleNet, MemoryOut>
    ensures { IfOk result (λ net. (meant : Viewed) → HasView part.now meant → IsModuleTyped meant → IsNetOf meant net) }
{
    let mut nodes = NetNodes::new(alloc);
    let roles = put_module(alloc, part, &mut nodes)?;
    Ok(ModuleNet { nodes, roles })
}

/// Puts the nodes of a module behind those that are there, and tells what gives each of its leaves its value.
fn put_module(
    alloc: Global,
    part: &LeafModule,
    nodes: &mut NetNodes,
) -> Result<Vec<NetRole>, MemoryOut>
    ensures { IfOk result (λ roles. (meant : Viewed) → HasView part.now meant → IsModuleTyped meant → IsNetOf meant (record { nodes = nodes.new; roles = roles })) }
{
    let types = types_of_leaves(alloc, part)?;
    let nothing = add_zero(nodes, NO_TYPE)?;
    let bounds = lower_nodes(alloc, &types, &part.nodes, nodes)?;
    let drivers = put_drivers(alloc, part, &types, &bounds, nodes)?;
    net_roles(
        alloc,
        &part.nodes,
        &bounds,
        &nothing,
        &drivers,
        &part.leaves,
    )
}

/// Puts in what drives each leaf of a module, whose leaves have these types and whose nodes have these bounds.
fn put_drivers(
    alloc: Global,
    part: &LeafModule,
    types: &[NumTy],
    bounds: &[Bound],
    nodes: &mut NetNodes,
) -> Result<Vec<Bound>, MemoryOut>
    requires { BoundsBelow (length nodes.old) bounds.now }
    ensures grows { IfOk result (λ drivers. Grows nodes.old nodes.new) }
    ensures are { IfOk result (λ drivers. AreDrivers types.now (depths_of part.now) (registers_of part.now) part.now.nodes.items bounds.now (block_in part.now.nodes.items part.now.body.items) nodes.old nodes.new drivers.items) }
{
    let depths = depths_of(alloc, part)?;
    let registers = registers_of(alloc, part)?;
    drivers_of(
        alloc,
        types,
        &depths,
        &registers,
        &part.nodes,
        bounds,
        &part.body,
        nodes,
    )
}

/// The types of a module's leaves. A clock counts as of no bits.
fn types_of_leaves(alloc: Global, part: &LeafModule) -> Result<Vec<NumTy>, MemoryOut>
    ensures { IfOk result (λ types. types.items ≡ types_of_leaves part.now) }
{
    let mut types = Vec::new(alloc);
    for leaf in &part.leaves {
        types.push(match leaf.holds {
            LeafType::Number(ty) => ty,
            LeafType::Clock => NO_TYPE,
        })?;
    }
    Ok(types)
}

/// Which leaves are registers.
fn registers_of(alloc: Global, part: &LeafModule) -> Result<Vec<bool>, MemoryOut>
    ensures { IfOk result (λ registers. registers.items ≡ registers_of part.now) }
{
    let mut registers = Vec::new(alloc);
    for leaf in &part.leaves {
        registers.push(matches!(leaf.role, LeafRole::Register(_, _)))?;
    }
    Ok(registers)
}

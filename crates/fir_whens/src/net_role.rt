//! What gives a leaf its value in the net of its module.

ghost use Rattle.std.specs.Prelude.{◌≡◌, IfOk};
ghost use Rattle.fir_whens.specs.working.StandingRoles.{AreRolesOf, IsRoleOf, reset_over};

use fir_ast::ReadUnderWrite;
use fir_base::MemoryOut;
use fir_leaf::Node;
use fir_leaf_circuit::{Leaf, LeafRole, ReadingRole, ResetRole};
use fir_merge::{Bound, value_at};
use std::alloc::Global;

/// What gives a leaf its value. Leaves and arrays are named by their numbers in the module.
#[derive(Clone, Copy)]
pub enum NetRole {
    /// An input of the module, or what an instance gives.
    Source,
    /// What the statements give.
    Driven(Bound),
    /// A node's expression.
    Computed(Bound),
    /// A register: its clock, its reset, and what it takes at an edge.
    Register(Bound, Option<NetReset>, Bound),
    /// What a memory's port reads at once.
    Reading(ReadingRole),
    /// What a memory's port has read at the last edge of its clock, whose leaf this is.
    Pipe(ReadingRole, usize, ReadUnderWrite),
}

/// The reset of a register's leaf.
#[derive(Clone, Copy)]
pub struct NetReset {
    pub is_async: bool,
    pub condition: Bound,
    /// What it resets the leaf to.
    pub init: Bound,
}

/// What gives each of some leaves its value, over their module's nodes, which have these bounds, and with what drives
/// it.
pub fn net_roles(
    alloc: Global,
    nodes: &[Node],
    bounds: &[Bound],
    nothing: &Bound,
    drivers: &[Bound],
    leaves: &[Leaf],
) -> Result<Vec<NetRole>, MemoryOut>
    ensures { IfOk result (λ roles. AreRolesOf nodes.now bounds.now nothing.now drivers.now leaves.now roles.items) }
{
    // The proof of the loop is else not told of the type of a reset.
    let _none: Option<NetReset> = None;
    let mut roles = Vec::new(alloc);
    for (leaf, driver) in leaves.iter().zip(drivers) {
        roles.push(net_role(nodes, bounds, nothing, driver, &leaf.role))?;
    }
    Ok(roles)
}

/// That of a leaf with a role over its module's nodes, which have these bounds, and with what drives it.
fn net_role(
    nodes: &[Node],
    bounds: &[Bound],
    nothing: &Bound,
    driver: &Bound,
    role: &LeafRole,
) -> NetRole
    ensures { IsRoleOf nodes.now bounds.now nothing.now driver.now role.now result }
{
    match role {
        LeafRole::Source => NetRole::Source,
        LeafRole::Sink => NetRole::Driven(*driver),
        LeafRole::Computed(node) => NetRole::Computed(value_at(nodes, bounds, nothing, *node)),
        LeafRole::Register(clock, reset) => {
            let clock = value_at(nodes, bounds, nothing, *clock);
            NetRole::Register(clock, net_reset(nodes, bounds, nothing, reset), *driver)
        }
        LeafRole::Reading(reading) => NetRole::Reading(*reading),
        LeafRole::Pipe(reading, clock, under) => NetRole::Pipe(*reading, *clock, *under),
    }
}

/// The reset of a register over those nodes.
fn net_reset(
    nodes: &[Node],
    bounds: &[Bound],
    nothing: &Bound,
    reset: &Option<ResetRole>,
) -> Option<NetReset>
    ensures { result ≡ reset_over nodes.now bounds.now nothing.now reset.now }
{
    match reset {
        None => None,
        Some(reset) => Some(NetReset {
            is_async: reset.is_async,
            condition: value_at(nodes, bounds, nothing, reset.condition),
            init: value_at(nodes, bounds, nothing, reset.init),
        }),
    }
}

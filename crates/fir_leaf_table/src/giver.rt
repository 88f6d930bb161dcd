//! What gives the leaves of a declaration their values (FIRRTL spec, "Ports", "Wires", "Registers", "Nodes",
//! "Instances", "Memories").

ghost use Rattle.std.specs.Prelude.{◌≡◌, List, length, map, option_map, slice_index_or};
ghost use Rattle.fir_leaf.specs.declared.node.Node.{Node as NodeMeant};
ghost use Rattle.fir_meaning.specs.working.LeafedBlocks.{term_at};
ghost use Rattle.fir_meaning.specs.working.LeafModules.{source};
ghost use Rattle.fir_leaf.specs.working.Nodes.{node_term};
ghost use Rattle.fir_leaf_table.specs.working.Givers.{direction_role, flipped_role, giver_role, reset_given};
ghost use Rattle.fir_leaf_circuit.specs.working.Seen.{reset_seen, role_seen};

use fir_base::Direction;
use fir_leaf_circuit::{LeafRole, ResetRole};

/// What gives the leaves of a declaration their values, each by its number among them.
#[derive(Clone, Copy)]
pub enum Giver<'a> {
    Port(Direction),
    Wire,
    /// The nodes of its expression.
    Node(&'a [usize]),
    /// The node of its clock, and its reset.
    Register(usize, Option<ResetGiver<'a>>),
    Instance,
    /// The roles of its leaves.
    Memory(&'a [LeafRole]),
}

/// The reset of a register.
#[derive(Clone, Copy)]
pub struct ResetGiver<'a> {
    pub is_async: bool,
    /// The node of its condition.
    pub condition: usize,
    /// The nodes of its init.
    pub init: &'a [usize],
}

/// What gives the leaf of a number its value. Behind the nodes of an expression is none.
pub fn role_given(giver: &Giver, k: usize, flip: bool, no_node: usize) -> LeafRole
    ensures { (nodes : List NodeMeant) → no_node ≡ length nodes → role_seen nodes result ≡ giver_role nodes giver.now k flip }
{
    match giver {
        Giver::Port(direction) => port_role(*direction, flip),
        Giver::Wire => LeafRole::Sink,
        Giver::Node(ids) => LeafRole::Computed(node_at(ids, k, no_node)),
        Giver::Register(clock, reset) => {
            LeafRole::Register(*clock, reset_role(reset, k, no_node))
        }
        Giver::Instance => instance_role(flip),
        Giver::Memory(roles) => role_at(roles, k),
    }
}

/// What the module drives of a port, and what drives it from outside.
fn port_role(direction: Direction, flip: bool) -> LeafRole
    ensures { (nodes : List NodeMeant) → role_seen nodes result ≡ direction_role direction flip }
{
    match (direction, flip) {
        (Direction::Input, false) | (Direction::Output, true) => LeafRole::Source,
        (Direction::Input, true) | (Direction::Output, false) => LeafRole::Sink,
    }
}

/// The reset of the leaf of a number.
fn reset_role(reset: &Option<ResetGiver>, k: usize, no_node: usize) -> Option<ResetRole>
    ensures { (nodes : List NodeMeant) → no_node ≡ length nodes → option_map (reset_seen nodes) result ≡ option_map (reset_given nodes k) reset.now }
{
    let Some(reset) = reset else {
        return None;
    };
    Some(ResetRole {
        is_async: reset.is_async,
        condition: reset.condition,
        init: node_at(reset.init, k, no_node),
    })
}

/// An instance takes what is flipped, and gives the rest.
fn instance_role(flip: bool) -> LeafRole
    ensures { (nodes : List NodeMeant) → role_seen nodes result ≡ flipped_role flip }
{
    if flip {
        LeafRole::Sink
    } else {
        LeafRole::Source
    }
}

/// The node of that number, or none.
fn node_at(ids: &[usize], k: usize, no_node: usize) -> usize
    ensures { (nodes : List NodeMeant) → no_node ≡ length nodes → node_term nodes result ≡ term_at (map (node_term nodes) ids.now) k }
{
    ids.get(k).copied().unwrap_or(no_node)
}

/// The role of that number.
fn role_at(roles: &[LeafRole], k: usize) -> LeafRole
    ensures { (nodes : List NodeMeant) → role_seen nodes result ≡ slice_index_or (map (role_seen nodes) roles.now) k source }
{
    roles.get(k).copied().unwrap_or(LeafRole::Source)
}

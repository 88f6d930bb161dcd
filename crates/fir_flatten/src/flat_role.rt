//! What gives a leaf of a design its value in the flat net.

ghost use Rattle.std.specs.Prelude.{◌≡◌, [], ◌∷◌, ◌++◌, IfOk, OnOk, length};
ghost use Rattle.fir_net.specs.declared.reads.Read.TheVariants as read;
ghost use Rattle.fir_flatten.specs.working.FlatRoles.{added_by, choice_node, choices_of_reset, clock_named, clock_of, driven_next, driven_role, flat_role_of, next_read, reset_of, source_role};

use crate::array_ports::array_read;
use crate::kept_nodes::{KeptNodes, moved};
use fir_ast::{LeafId, NodeId, ReadUnderWrite};
use fir_base::MemoryOut;
use fir_leaf_circuit::LeafType;
use fir_merge::Bound;
use fir_net::{Mux, Node, Pipe, Read, Register, Reset, ResetKind, Role};
use fir_whens::{NetReset, NetRole};
use std::alloc::Global;

/// The role of a leaf that is one of a port or not, and that a statement drives or none, over the kept nodes, behind
/// which the choices of synchronous resets are put, and what enables a memory's port. A register that nothing drives
/// and no reset changes takes nothing.
pub fn flat_role(
    alloc: Global,
    is_port: bool,
    is_driven: bool,
    holds: LeafType,
    role: NetRole,
    kept: &mut KeptNodes,
) -> Result<Role, MemoryOut>
    ensures role { IfOk result (λ r. r ≡ flat_role_of kept.old.places.items is_port is_driven holds role (length kept.old.nodes.items)) }
    ensures nodes { OnOk result (kept.new.nodes.items ≡ kept.old.nodes.items ++ added_by kept.old.places.items role (length kept.old.nodes.items)) }
    ensures places { OnOk result (kept.new.places.items ≡ kept.old.places.items) }
{
    match role {
        NetRole::Source => Ok(source_role(holds)),
        NetRole::Driven(bound) | NetRole::Computed(bound) => {
            Ok(driven_role(is_port, holds, &kept.places, bound.read))
        }
        NetRole::Register(clock, reset, next) => {
            let next = next_of(is_driven, kept, &reset, &next)?;
            Ok(Role::Register(Register {
                clock: clock_of(clock.read),
                reset: reset_kept(&kept.places, &reset),
                next,
            }))
        }
        NetRole::Reading(reading) => {
            let read = array_read(alloc, reading, &mut kept.nodes)?;
            Ok(Role::Reading(read))
        }
        NetRole::Pipe(reading, clock, under) => {
            let read = array_read(alloc, reading, &mut kept.nodes)?;
            Ok(Role::Pipe(Pipe {
                clock: LeafId::new(clock),
                read,
                is_new: matches!(under, ReadUnderWrite::New),
            }))
        }
    }
}

/// An input, or a clock.
fn source_role(holds: LeafType) -> Role
    ensures { result ≡ source_role holds }
{
    match holds {
        LeafType::Number(_) => Role::Input,
        LeafType::Clock => Role::Clock,
    }
}

/// An output or another leaf, of a number or of a clock, with what drives it.
fn driven_role(is_port: bool, holds: LeafType, places: &[usize], read: Read) -> Role
    ensures { result ≡ driven_role places.now is_port holds read }
{
    match (holds, is_port) {
        (LeafType::Number(_), true) => Role::Output(moved(places, read)),
        (LeafType::Number(_), false) => Role::Wire(moved(places, read)),
        (LeafType::Clock, true) => Role::ClockOutput(clock_named(read)),
        (LeafType::Clock, false) => Role::ClockWire(clock_named(read)),
    }
}

/// The clock leaf that is read; an invalid gives no clock.
fn clock_named(read: Read) -> Option<LeafId>
    ensures { result ≡ clock_named read }
{
    match read {
        Read::Leaf(leaf) => Some(leaf),
        Read::Node(_) => None,
    }
}

/// The leaf of a register's clock, which is read as it is.
fn clock_of(read: Read) -> LeafId
    ensures { result ≡ clock_of read }
{
    match read {
        Read::Leaf(leaf) => leaf,
        Read::Node(_) => LeafId::new(0),
    }
}

/// An asynchronous reset stays one.
fn reset_kept(places: &[usize], reset: &Option<NetReset>) -> Option<Reset>
    ensures { result ≡ reset_of places.now reset.now }
{
    match reset {
        Some(reset) if reset.is_async => Some(Reset {
            kind: ResetKind::Asynchronous,
            condition: moved(places, reset.condition.read),
            init: moved(places, reset.init.read),
        }),
        _ => None,
    }
}

/// What a register takes at an edge of its clock: its init while a synchronous reset is 1, else what drives it, if a
/// statement does (FIRRTL spec, "Registers").
fn next_of(
    is_driven: bool,
    kept: &mut KeptNodes,
    reset: &Option<NetReset>,
    next: &Bound,
) -> Result<Option<Read>, MemoryOut>
    ensures read { IfOk result (λ r. r ≡ next_read kept.old.places.items is_driven (length kept.old.nodes.items) reset.now next.now) }
    ensures nodes { OnOk result (kept.new.nodes.items ≡ kept.old.nodes.items ++ choices_of_reset kept.old.places.items reset.now next.now) }
    ensures places { OnOk result (kept.new.places.items ≡ kept.old.places.items) }
{
    match reset {
        Some(reset) if !reset.is_async => Ok(Some(add_choice(kept, reset, next)?)),
        _ => Ok(driven_next(is_driven, &kept.places, next)),
    }
}

/// What a register takes that no reset holds.
fn driven_next(is_driven: bool, places: &[usize], next: &Bound) -> Option<Read>
    ensures { result ≡ driven_next places.now is_driven next.now }
{
    if is_driven {
        Some(moved(places, next.read))
    } else {
        None
    }
}

/// Puts the choice behind the nodes.
fn add_choice(kept: &mut KeptNodes, reset: &NetReset, next: &Bound) -> Result<Read, MemoryOut>
    ensures read { IfOk result (λ r. r ≡ read.Node (length kept.old.nodes.items)) }
    ensures nodes { OnOk result (kept.new.nodes.items ≡ kept.old.nodes.items ++ choice_node kept.old.places.items reset.now next.now ∷ []) }
    ensures places { OnOk result (kept.new.places.items ≡ kept.old.places.items) }
{
    let number = kept.nodes.len();
    let choice = Mux {
        reads: [
            moved(&kept.places, reset.condition.read),
            moved(&kept.places, reset.init.read),
            moved(&kept.places, next.read),
        ],
        signed: reset.init.ty.signed,
        width: reset.init.ty.width.max(next.ty.width),
    };
    kept.nodes.push(Node::Mux(choice))?;
    Ok(Read::Node(NodeId::new(number)))
}

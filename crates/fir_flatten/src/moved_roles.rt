//! The nodes, the roles and the writes of a module over the numbers of the whole design.

ghost use Rattle.std.specs.Prelude.{◌≡◌, IfOk, option_map};
ghost use Rattle.fir_flatten.specs.working.MovedNets.{bound_moved, leaf_moved, node_moved, reading_moved, reset_moved, role_moved, writing_moved};

use crate::offsets::Offsets;
use fir_base::{MemoryOut, Seq};
use fir_leaf_circuit::{ReadingRole, Writing};
use fir_merge::Bound;
use fir_net::{Mux, Node, Operation, Reads};
use fir_whens::{NetReset, NetRole};
use std::alloc::Global;

/// A node.
pub fn moved_node(alloc: Global, node: &Node, at: &Offsets) -> Result<Node, MemoryOut>
    ensures { IfOk result (λ moved. moved ≡ node_moved at.now node.now) }
{
    match node {
        Node::Literal(value) => Ok(Node::Literal(*value)),
        Node::Operation(operation) => {
            let mut reads = Reads::new(alloc);
            for read in operation.reads.as_slice() {
                reads.push(at.read(*read))?;
            }
            let integers = Vec::from_slice(alloc, operation.integers.as_slice())?;
            Ok(Node::Operation(Operation {
                op: operation.op,
                reads,
                integers: Seq::from_vec(integers),
                signed: operation.signed,
                width: operation.width,
            }))
        }
        Node::Mux(mux) => {
            let [condition, first, second] = mux.reads;
            Ok(Node::Mux(Mux {
                reads: [at.read(condition), at.read(first), at.read(second)],
                signed: mux.signed,
                width: mux.width,
            }))
        }
    }
}

/// What gives a leaf its value.
pub fn moved_role(role: NetRole, at: &Offsets) -> NetRole
    ensures { result ≡ role_moved at.now role }
{
    match role {
        NetRole::Source => NetRole::Source,
        NetRole::Driven(bound) => NetRole::Driven(moved_bound(bound, at)),
        NetRole::Computed(bound) => NetRole::Computed(moved_bound(bound, at)),
        NetRole::Register(clock, reset, next) => NetRole::Register(
            moved_bound(clock, at),
            moved_reset(reset, at),
            moved_bound(next, at),
        ),
        NetRole::Reading(reading) => NetRole::Reading(moved_reading(reading, at)),
        NetRole::Pipe(reading, clock, under) => {
            NetRole::Pipe(moved_reading(reading, at), at.leaf(clock), under)
        }
    }
}

fn moved_bound(bound: Bound, at: &Offsets) -> Bound
    ensures { result ≡ bound_moved at.now bound }
{
    Bound {
        read: at.read(bound.read),
        ty: bound.ty,
    }
}

fn moved_reset(reset: Option<NetReset>, at: &Offsets) -> Option<NetReset>
    ensures { result ≡ option_map (reset_moved at.now) reset }
{
    match reset {
        Some(reset) => Some(NetReset {
            is_async: reset.is_async,
            condition: moved_bound(reset.condition, at),
            init: moved_bound(reset.init, at),
        }),
        None => None,
    }
}

fn moved_reading(reading: ReadingRole, at: &Offsets) -> ReadingRole
    ensures { result ≡ reading_moved at.now reading }
{
    ReadingRole {
        array: at.array(reading.array),
        address: at.leaf(reading.address),
        enable: at.leaf(reading.enable),
        mode: moved_mode(reading.mode, at),
    }
}

/// What writes an array.
pub fn moved_writing(writing: &Writing, at: &Offsets) -> Writing
    ensures { result ≡ writing_moved at.now writing.now }
{
    Writing {
        address: at.leaf(writing.address),
        enable: at.leaf(writing.enable),
        mode: moved_mode(writing.mode, at),
        mask: at.leaf(writing.mask),
        clock: at.leaf(writing.clock),
        given: at.leaf(writing.given),
    }
}

fn moved_mode(mode: Option<usize>, at: &Offsets) -> Option<usize>
    ensures { result ≡ option_map (leaf_moved at.now) mode }
{
    match mode {
        Some(mode) => Some(at.leaf(mode)),
        None => None,
    }
}

//! What is needed: the ports, registers and pipes, what writes arrays reads, and what these read, at once or at an edge.

ghost use Rattle.std.specs.Prelude.{◌≡◌, IfOk};
ghost use Rattle.fir_net.specs.working.IsNet.{IsNet};
ghost use Rattle.fir_net.specs.working.IsOrder.{IsOrder};
ghost use Rattle.fir_drop_dead.specs.working.IsLive.{array_reads, optional_read, whole_reads, whole_reset_reads, whole_role_reads, write_reads};
ghost use Rattle.fir_drop_dead.specs.working.Marks.{marked_all};
ghost use Rattle.fir_drop_dead.specs.working.Needed.{AreNeeded, arrays_reads, is_root, root_reads, writes_reads};

use crate::marks::Marks;
use fir_ast::LeafId;
use fir_base::MemoryOut;
use fir_net::{Array, ArrayRead, ArrayWrite, FlatNet, Leaf, Read, Reset, Role};
use std::alloc::Global;

/// Marks what is needed of a net with this order.
pub fn needed(alloc: Global, net: &FlatNet, order: &[Read]) -> Result<Marks, MemoryOut>
    requires whole { IsNet net.now }
    requires ordered { IsOrder net.now order.now }
    ensures { IfOk result (AreNeeded net.now) }
{
    let leaves = net.leaves.as_slice();
    let mut marks = Marks::none(alloc, leaves.len(), net.nodes.as_slice().len())?;
    mark_roots(leaves, &mut marks);
    mark_writes_of(net.arrays.as_slice(), &mut marks);
    // What hangs on a leaf or node stands behind it; a register or a pipe is read by others too, but is marked already.
    for place in (0..order.len()).rev() {
        let read = &order[place];
        if marks.has(*read) {
            mark_reads(net, *read, &mut marks);
        }
    }
    Ok(marks)
}

/// Marks the ports, registers and pipes, and what they read.
fn mark_roots(leaves: &[Leaf], marks: &mut Marks)
    ensures { marks.new ≡ marked_all (root_reads 0 leaves.now) marks.old }
{
    for (number, leaf) in leaves.iter().enumerate() {
        if is_root(leaf.role) {
            marks.mark(Read::Leaf(LeafId::new(number)));
            mark_role(leaf.role, marks);
        }
    }
}

/// Whether a leaf is a port, a register or a pipe.
fn is_root(role: Role) -> bool
    ensures { result ≡ is_root role }
{
    match role {
        Role::Wire(_) | Role::Reading(_) | Role::ClockWire(_) => false,
        Role::Input
        | Role::Clock
        | Role::Output(_)
        | Role::Register(_)
        | Role::Pipe(_)
        | Role::ClockOutput(_) => true,
    }
}

/// Marks what is read by what writes the arrays.
fn mark_writes_of(arrays: &[Array], marks: &mut Marks)
    ensures { marks.new ≡ marked_all (arrays_reads arrays.now) marks.old }
{
    for array in arrays {
        mark_writes(array.writes.as_slice(), marks);
    }
}

fn mark_writes(writes: &[ArrayWrite], marks: &mut Marks)
    ensures { marks.new ≡ marked_all (writes_reads writes.now) marks.old }
{
    for write in writes {
        mark_write(write, marks);
    }
}

fn mark_write(write: &ArrayWrite, marks: &mut Marks)
    ensures { marks.new ≡ marked_all (write_reads write.now) marks.old }
{
    marks.mark(Read::Leaf(write.clock));
    marks.mark(write.condition);
    marks.mark(write.address);
    marks.mark(write.given);
}

/// Marks what a leaf or a node reads.
fn mark_reads(net: &FlatNet, read: Read, marks: &mut Marks)
    ensures { marks.new ≡ marked_all (whole_reads net.now read) marks.old }
{
    match read {
        Read::Leaf(leaf) => match net.leaves.as_slice().get(leaf.number()) {
            Some(leaf) => mark_role(leaf.role, marks),
            None => (),
        },
        Read::Node(node) => match net.nodes.as_slice().get(node.number()) {
            Some(node) => marks.mark_all(node.support()),
            None => (),
        },
    }
}

/// Marks what gives a leaf its value, at once or at an edge.
fn mark_role(role: Role, marks: &mut Marks)
    ensures { marks.new ≡ marked_all (whole_role_reads role) marks.old }
{
    match role {
        Role::Input | Role::Clock | Role::ClockOutput(None) | Role::ClockWire(None) => (),
        Role::Output(read) | Role::Wire(read) => marks.mark(read),
        Role::Register(register) => {
            marks.mark(Read::Leaf(register.clock));
            mark_reset(register.reset, marks);
            mark_next(register.next, marks);
        }
        Role::Reading(read) => mark_array_read(read, marks),
        Role::Pipe(pipe) => {
            marks.mark(Read::Leaf(pipe.clock));
            mark_array_read(pipe.read, marks);
        }
        Role::ClockOutput(Some(clock)) | Role::ClockWire(Some(clock)) => {
            marks.mark(Read::Leaf(clock));
        }
    }
}

fn mark_reset(reset: Option<Reset>, marks: &mut Marks)
    ensures { marks.new ≡ marked_all (whole_reset_reads reset) marks.old }
{
    if let Some(reset) = reset {
        marks.mark(reset.condition);
        marks.mark(reset.init);
    }
}

fn mark_next(next: Option<Read>, marks: &mut Marks)
    ensures { marks.new ≡ marked_all (optional_read next) marks.old }
{
    if let Some(read) = next {
        marks.mark(read);
    }
}

fn mark_array_read(read: ArrayRead, marks: &mut Marks)
    ensures { marks.new ≡ marked_all (array_reads read) marks.old }
{
    marks.mark(read.address);
    marks.mark(read.enable);
}

//! Leaves and arrays over kept leaves and nodes.

ghost use Rattle.std.specs.Prelude.{◌≡◌, IfOk, map, option_map};
ghost use Rattle.fir_drop_dead.specs.working.Moved.{moved_array, moved_array_read, moved_leaf, moved_leaf_number, moved_pipe, moved_read, moved_register, moved_reset, moved_role, moved_write};

use crate::kept::Kept;
use fir_ast::LeafId;
use fir_base::{MemoryOut, Seq};
use fir_net::{Array, ArrayRead, ArrayWrite, Leaf, Pipe, Read, Register, Reset, Role};
use std::alloc::Global;

/// A leaf.
pub fn moved_leaf(leaf: Leaf, kept: &Kept) -> Leaf
    ensures { result ≡ moved_leaf kept.now leaf }
{
    let Leaf {
        path,
        place,
        signed,
        width,
        role,
    } = leaf;
    Leaf {
        path,
        place,
        signed,
        width,
        role: moved_role(role, kept),
    }
}

/// What gives a leaf its value.
fn moved_role(role: Role, kept: &Kept) -> Role
    ensures { result ≡ moved_role kept.now role }
{
    match role {
        Role::Input => Role::Input,
        Role::Clock => Role::Clock,
        Role::Output(read) => Role::Output(kept.read(read)),
        Role::Wire(read) => Role::Wire(kept.read(read)),
        Role::Register(register) => Role::Register(moved_register(register, kept)),
        Role::Reading(read) => Role::Reading(moved_array_read(read, kept)),
        Role::Pipe(pipe) => Role::Pipe(moved_pipe(pipe, kept)),
        Role::ClockOutput(clock) => Role::ClockOutput(moved_clock(clock, kept)),
        Role::ClockWire(clock) => Role::ClockWire(moved_clock(clock, kept)),
    }
}

fn moved_register(register: Register, kept: &Kept) -> Register
    ensures { result ≡ moved_register kept.now register }
{
    Register {
        clock: kept.leaf(register.clock),
        reset: moved_optional_reset(register.reset, kept),
        next: moved_next(register.next, kept),
    }
}

fn moved_optional_reset(reset: Option<Reset>, kept: &Kept) -> Option<Reset>
    ensures { result ≡ option_map (moved_reset kept.now) reset }
{
    match reset {
        Some(reset) => Some(Reset {
            kind: reset.kind,
            condition: kept.read(reset.condition),
            init: kept.read(reset.init),
        }),
        None => None,
    }
}

fn moved_next(next: Option<Read>, kept: &Kept) -> Option<Read>
    ensures { result ≡ option_map (moved_read kept.now) next }
{
    match next {
        Some(read) => Some(kept.read(read)),
        None => None,
    }
}

fn moved_clock(clock: Option<LeafId>, kept: &Kept) -> Option<LeafId>
    ensures { result ≡ option_map (moved_leaf_number kept.now) clock }
{
    match clock {
        Some(leaf) => Some(kept.leaf(leaf)),
        None => None,
    }
}

fn moved_pipe(pipe: Pipe, kept: &Kept) -> Pipe
    ensures { result ≡ moved_pipe kept.now pipe }
{
    Pipe {
        clock: kept.leaf(pipe.clock),
        read: moved_array_read(pipe.read, kept),
        is_new: pipe.is_new,
    }
}

fn moved_array_read(read: ArrayRead, kept: &Kept) -> ArrayRead
    ensures { result ≡ moved_array_read kept.now read }
{
    ArrayRead {
        array: read.array,
        address: kept.read(read.address),
        enable: kept.read(read.enable),
    }
}

/// An array.
pub fn moved_array(alloc: Global, array: Array, kept: &Kept) -> Result<Array, MemoryOut>
    ensures { IfOk result (λ a. a ≡ moved_array kept.now array) }
{
    let Array {
        path,
        signed,
        width,
        words,
        writes,
    } = array;
    let writes = moved_writes(alloc, writes.as_slice(), kept)?;
    Ok(Array {
        path,
        signed,
        width,
        words,
        writes: Seq::from_vec(writes),
    })
}

fn moved_writes(
    alloc: Global,
    writes: &[ArrayWrite],
    kept: &Kept,
) -> Result<Vec<ArrayWrite>, MemoryOut>
    ensures { IfOk result (λ v. v.items ≡ map (moved_write kept.now) writes.now) }
{
    let mut moved = Vec::with_capacity(alloc, writes.len())?;
    for write in writes {
        moved.push(moved_write(write, kept))?;
    }
    Ok(moved)
}

fn moved_write(write: &ArrayWrite, kept: &Kept) -> ArrayWrite
    ensures { result ≡ moved_write kept.now write.now }
{
    ArrayWrite {
        clock: kept.leaf(write.clock),
        condition: kept.read(write.condition),
        address: kept.read(write.address),
        given: kept.read(write.given),
    }
}

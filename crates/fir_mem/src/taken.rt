//! What a register takes in the place of a pipe. A leaf behind all others reads the array at once. Where the port reads
//! what is written at the same edge, each write of the array is a choice: what it writes, where it writes at the address
//! that is read, else what was there before it; and all of it is zero where nothing is read.

ghost use Rattle.std.specs.Prelude.{◌≡◌, ◌<◌, ◌≤◌, IfOk, OnOk, length, slice_get};
ghost use Rattle.fir_mem.specs.working.Built.{NarrowLeaves, Puts, choice, choice_read, choices_read, guard_read, is_read_read, left_read, lower_first, lower_leaf, lower_pipe_at, put_choice, put_choices, put_guard, put_is_read, put_left, put_taken, reading_of, taken_read};

use crate::built::Lowered;
use crate::clocked_writes::{PortWrite, PortWrites};
use fir_base::MemoryOut;
use fir_bits::{Bits, Num, NumTy, PrimOp};
use fir_net::{ArrayRead, Leaf, Mux, Node, Pipe, Read, Register, Role};
use std::alloc::Global;

/// Makes each pipe a register, where the arrays have these writes that have a clock.
pub fn take_pipes(
    lowered: &mut Lowered,
    alloc: Global,
    writes: &[PortWrites],
) -> Result<(), MemoryOut>
    requires { NarrowLeaves lowered.old.leaves }
    ensures { OnOk result (lowered.new ≡ lower_first writes.now lowered.old (length lowered.old.leaves)) }
{
    for number in 0..lowered.leaves.len() {
        take_leaf(lowered, alloc, number, writes)?;
    }
    Ok(())
}

/// Makes the leaf of a number a register, if it is a pipe.
fn take_leaf(
    lowered: &mut Lowered,
    alloc: Global,
    number: usize,
    writes: &[PortWrites],
) -> Result<(), MemoryOut>
    requires within { number < length lowered.old.leaves }
    requires narrow { NarrowLeaves lowered.old.leaves }
    ensures { OnOk result (lowered.new ≡ lower_leaf writes.now lowered.old number (slice_get lowered.old.leaves number)) }
{
    match lowered.leaves[number].role {
        Role::Pipe(pipe) => take_pipe(lowered, alloc, number, &pipe, writes),
        _ => Ok(()),
    }
}

/// Makes the leaf of a number, which is this pipe, a register.
fn take_pipe(
    lowered: &mut Lowered,
    alloc: Global,
    number: usize,
    pipe: &Pipe,
    writes: &[PortWrites],
) -> Result<(), MemoryOut>
    requires within { number < length lowered.old.leaves }
    requires narrow { NarrowLeaves lowered.old.leaves }
    ensures { OnOk result (lowered.new ≡ lower_pipe_at writes.now lowered.old number (slice_get lowered.old.leaves number) pipe.now) }
{
    let leaf = &lowered.leaves[number];
    let ty = NumTy {
        signed: leaf.signed,
        width: leaf.width,
    };
    let reading = reading_of(alloc, leaf, &pipe.read)?;
    let word = lowered.put_leaf(reading)?;
    let next = put_taken(lowered, alloc, pipe, ty, writes, word)?;
    lowered.leaves[number].role = Role::Register(Register {
        clock: pipe.clock,
        reset: None,
        next: Some(next),
    });
    Ok(())
}

/// A leaf that reads the array at once, under the path of a pipe.
fn reading_of(alloc: Global, pipe: &Leaf, read: &ArrayRead) -> Result<Leaf, MemoryOut>
    ensures { IfOk result (λ l. l ≡ reading_of pipe.now read.now) }
{
    Ok(Leaf {
        path: pipe.path.copy(alloc)?,
        place: pipe.place,
        signed: pipe.signed,
        width: pipe.width,
        role: Role::Reading(*read),
    })
}

/// Puts what a pipe takes of an array with these writes, where the word is what is read before them.
fn put_taken(
    lowered: &mut Lowered,
    alloc: Global,
    pipe: &Pipe,
    ty: NumTy,
    writes: &[PortWrites],
    word: Read,
) -> Result<Read, MemoryOut>
    requires { ty.width ≤ 128 }
    ensures { IfOk result (λ r. Puts lowered.new r (put_taken lowered.old pipe.now.is_new pipe.now.read ty (slice_get writes.now pipe.now.read.array) word) (taken_read lowered.old pipe.now.is_new pipe.now.read ty (slice_get writes.now pipe.now.read.array) word)) }
{
    if !pipe.is_new {
        return Ok(word);
    }
    if pipe.read.array >= writes.len() {
        return Ok(word);
    }
    put_left(
        lowered,
        alloc,
        &pipe.read,
        ty,
        &writes[pipe.read.array],
        word,
    )
}

/// Puts a choice for each of these writes, and one for where nothing is read.
fn put_left(
    lowered: &mut Lowered,
    alloc: Global,
    read: &ArrayRead,
    ty: NumTy,
    writes: &PortWrites,
    word: Read,
) -> Result<Read, MemoryOut>
    requires { ty.width ≤ 128 }
    ensures { IfOk result (λ r. Puts lowered.new r (put_left lowered.old read.now ty writes.now word) (left_read lowered.old read.now ty writes.now word)) }
{
    let taken = put_choices(
        lowered,
        alloc,
        &read.address,
        ty,
        writes.writes.as_slice(),
        word,
    )?;
    put_guard(lowered, alloc, read, ty, writes.end, taken)
}

/// Puts a choice for each of these writes, the last one of which counts.
fn put_choices(
    lowered: &mut Lowered,
    alloc: Global,
    address: &Read,
    ty: NumTy,
    writes: &[PortWrite],
    word: Read,
) -> Result<Read, MemoryOut>
    ensures { IfOk result (λ r. Puts lowered.new r (put_choices lowered.old address.now ty writes.now word) (choices_read lowered.old address.now ty writes.now word)) }
{
    let mut taken = word;
    for write in writes {
        taken = put_choice(lowered, alloc, address, ty, write, taken)?;
    }
    Ok(taken)
}

/// Puts the choice of one write: what it writes where it writes at the address, else what was there before it.
fn put_choice(
    lowered: &mut Lowered,
    alloc: Global,
    address: &Read,
    ty: NumTy,
    write: &PortWrite,
    before: Read,
) -> Result<Read, MemoryOut>
    ensures { IfOk result (λ r. Puts lowered.new r (put_choice lowered.old address.now ty write.now before) (choice_read lowered.old address.now write.now)) }
{
    let here = lowered.put_bit(alloc, PrimOp::Eq, write.address, *address)?;
    let written = lowered.put_bit(alloc, PrimOp::And, write.condition, here)?;
    lowered.put(choice(ty, written, write.given, before))
}

/// Puts a choice: what was taken where something is read, else zero.
fn put_guard(
    lowered: &mut Lowered,
    alloc: Global,
    read: &ArrayRead,
    ty: NumTy,
    end: Num,
    taken: Read,
) -> Result<Read, MemoryOut>
    requires { ty.width ≤ 128 }
    ensures { IfOk result (λ r. Puts lowered.new r (put_guard lowered.old read.now ty end taken) (guard_read lowered.old read.now ty end)) }
{
    let is_read = put_is_read(lowered, alloc, read, end)?;
    let zero = lowered.put(Node::Literal(Num {
        signed: ty.signed,
        value: Bits::of(ty.width, 0),
    }))?;
    lowered.put(choice(ty, is_read, taken, zero))
}

/// Puts whether something is read: what enables it, and that the address is before the end.
fn put_is_read(
    lowered: &mut Lowered,
    alloc: Global,
    read: &ArrayRead,
    end: Num,
) -> Result<Read, MemoryOut>
    ensures { IfOk result (λ r. Puts lowered.new r (put_is_read lowered.old read.now end) (is_read_read lowered.old read.now end)) }
{
    let end = lowered.put(Node::Literal(end))?;
    let within = lowered.put_bit(alloc, PrimOp::Lt, read.address, end)?;
    lowered.put_bit(alloc, PrimOp::And, read.enable, within)
}

/// What counts where the condition is 1, else the other.
fn choice(ty: NumTy, condition: Read, first: Read, second: Read) -> Node
    ensures { result ≡ choice ty condition first second }
{
    Node::Mux(Mux {
        reads: [condition, first, second],
        signed: ty.signed,
        width: ty.width,
    })
}

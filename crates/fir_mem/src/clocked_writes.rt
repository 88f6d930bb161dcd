//! Which writes of arrays have a clock.

ghost use Rattle.std.specs.Prelude.{IfOk};
ghost use Rattle.fir_mem.specs.working.ClockedWrites.{AreClocked, AreClockedArrays, IsClockedArray, IsEnd};

use fir_base::{MemoryOut, Seq};
use fir_bits::laws::least_width_is_least;
use fir_bits::{Bits, Num, least_width};
use fir_clock_root::clock_root;
use fir_net::{Array, ArrayWrite, FlatNet, Read};
use std::alloc::Global;

/// What a write of an array does at an edge of its clock.
#[derive(Clone, Copy)]
pub struct PortWrite {
    /// One bit, which is 1 where something is written.
    pub condition: Read,
    pub address: Read,
    pub given: Read,
}

/// The writes of an array that have a clock, in their order. One without a clock never writes.
#[derive(Drop)]
pub struct PortWrites {
    /// The number of the array's words, a UInt.
    pub end: Num,
    pub writes: Seq<PortWrite>,
}

/// By the numbers of the arrays, the writes whose clock's drivers end at a clock input.
pub fn clocked_writes(alloc: Global, net: &FlatNet) -> Result<Vec<PortWrites>, MemoryOut>
    ensures { IfOk result (λ all. AreClockedArrays net.now net.now.arrays all.items) }
{
    let mut all = Vec::new(alloc);
    for array in net.arrays.as_slice() {
        all.push(clocked_in(alloc, net, array)?)?;
    }
    Ok(all)
}

/// Of one array.
fn clocked_in(alloc: Global, net: &FlatNet, array: &Array) -> Result<PortWrites, MemoryOut>
    ensures { IfOk result (IsClockedArray net.now array.now) }
{
    let writes = clocked_among(alloc, net, array.writes.as_slice())?;
    Ok(PortWrites {
        end: end_of(array.words),
        writes: Seq::from_vec(writes),
    })
}

/// Of these writes.
fn clocked_among(
    alloc: Global,
    net: &FlatNet,
    writes: &[ArrayWrite],
) -> Result<Vec<PortWrite>, MemoryOut>
    ensures { IfOk result (λ v. AreClocked net.now writes.now v.items) }
{
    let mut clocked = Vec::new(alloc);
    for write in writes {
        if clock_root(net, write.clock).is_some() {
            clocked.push(PortWrite {
                condition: write.condition,
                address: write.address,
                given: write.given,
            })?;
        }
    }
    Ok(clocked)
}

/// A number of words as a UInt of the least width.
fn end_of(words: usize) -> Num
    ensures { IsEnd words result }
{
    least_width_is_least();
    let words = words as u128;
    Num {
        signed: false,
        value: Bits::of(least_width(false, false, words), words),
    }
}

//! The nets of writes at addresses that may be past the end.

ghost use Rattle.std.specs.Prelude.{◌≡◌, ◌+◌, ◌*◌, ◌^◌, ◌≤◌, ◌<◌, IfOk, [], length};
ghost use Rattle.fir_net.specs.working.IsNet.{IsNet};
ghost use Rattle.ver_build.specs.working.Places.{AreGuards, needs_guard};
ghost use Rattle.ver_build.specs.working.Walks.{AreArrayGuards, IsArrayPassed, IsGuardNamed};

use crate::array_texts::{always_within, read_width};
use crate::node_places::MOST;
use crate::places::{Guard, Place, clock_in};
use fir_base::{MemoryOut, Seq};
use fir_net::{Array, ArrayWrite, FlatNet};
use fir_net_names::{NameTable, Numbered};
use std::alloc::Global;

/// The nets of writes, by the numbers of their arrays and by their own; the first has the first free inner name from
/// that number on.
pub fn write_guards(
    alloc: Global,
    net: &FlatNet,
    table: &NameTable,
    leaves: &[Place],
    first: u128,
) -> Result<Vec<Seq<Option<Guard>>>, MemoryOut>
    requires { first ≤ 2 ^ 127 }
    ensures { IfOk result (λ v. IsNet net.now → AreGuards net.now table.now leaves.now first v.items) }
{
    let mut guards = no_guards(alloc, net.arrays.as_slice())?;
    let order = net.array_order.as_slice();
    let mut from = first;
    for array in order {
        from = pass(alloc, net, table, leaves, &mut guards, *array, from)?;
    }
    Ok(guards)
}

/// No nets for each array.
fn no_guards(alloc: Global, arrays: &[Array]) -> Result<Vec<Seq<Option<Guard>>>, MemoryOut>
    ensures { IfOk result (λ v. length v.items ≡ length arrays.now) }
{
    let mut guards = Vec::new(alloc);
    for array in arrays {
        let _ = array;
        guards.push(Seq::from_vec(Vec::new(alloc)))?;
    }
    Ok(guards)
}

/// Notes the nets of the writes of an array, and returns the number behind their names.
fn pass(
    alloc: Global,
    net: &FlatNet,
    table: &NameTable,
    leaves: &[Place],
    guards: &mut Vec<Seq<Option<Guard>>>,
    array: usize,
    from: u128,
) -> Result<u128, MemoryOut>
    requires { from ≤ 2 ^ 127 }
    ensures near { IfOk result (λ to. to ≤ 2 ^ 127) }
    ensures passed { IfOk result (λ to. array < length net.now.arrays → length guards.old.items ≡ length net.now.arrays
        → IsArrayPassed net.now table.now leaves.now array from guards.old.items guards.new.items to) }
{
    let arrays = net.arrays.as_slice();
    if array < arrays.len() && array < guards.len() {
        let (own, next) = array_guards(alloc, net, table, leaves, &arrays[array], from)?;
        guards[array] = own;
        Ok(next)
    } else {
        Ok(from)
    }
}

/// The nets of the writes of an array, and the number behind their names.
fn array_guards(
    alloc: Global,
    net: &FlatNet,
    table: &NameTable,
    leaves: &[Place],
    array: &Array,
    from: u128,
) -> Result<(Seq<Option<Guard>>, u128), MemoryOut>
    requires { from ≤ 2 ^ 127 }
    ensures { IfOk result (λ r. AreArrayGuards net.now table.now leaves.now array.now.words array.now.writes from r.0 r.1) }
{
    let mut guards = Vec::new(alloc);
    let mut next = from;
    let writes = array.writes.as_slice();
    for write in writes {
        if next > MOST {
            return Err(MemoryOut);
        }
        let (guard, to) = write_guard(alloc, net, table, leaves, array.words, write, next)?;
        guards.push(guard)?;
        next = to;
    }
    Ok((Seq::from_vec(guards), next))
}

/// The nets of a write, where it needs them, and the number behind their names.
fn write_guard(
    alloc: Global,
    net: &FlatNet,
    table: &NameTable,
    leaves: &[Place],
    words: usize,
    write: &ArrayWrite,
    from: u128,
) -> Result<(Option<Guard>, u128), MemoryOut>
    requires { from ≤ 2 ^ 126 }
    ensures { IfOk result (λ r. IsGuardNamed table.now (needs_guard net.now leaves.now words write.now) from r.0 r.1) }
{
    if !needs_guard(net, leaves, words, write) {
        return Ok((None, from));
    }
    let within = table.inner(alloc, from)?;
    let written = table.inner(alloc, within.number + 1)?;
    let next = written.number + 1;
    Ok((
        Some(Guard {
            within: within.name,
            written: written.name,
        }),
        next,
    ))
}

/// Whether a write is on a clock, at an address that may be past the end.
fn needs_guard(net: &FlatNet, leaves: &[Place], words: usize, write: &ArrayWrite) -> bool
    ensures { result ≡ needs_guard net.now leaves.now words write.now }
{
    clock_in(leaves, write.clock).is_some() && !always_within(read_width(net, write.address), words)
}

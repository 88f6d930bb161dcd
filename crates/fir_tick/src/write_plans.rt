//! What a tick does with the writes of arrays, worked out once.

ghost use Rattle.std.specs.Prelude.{◌≡◌, ◌++◌, ◌<◌, ◌≤◌, Bool, List, IfOk, OnOk, length, map};
ghost use Rattle.std.specs.List.{AllZip};
ghost use Rattle.fir_net.specs.working.IsNet.{IsArrayWrite, IsNet};
ghost use Rattle.fir_tick.specs.declared.write_plans.WritePlan.{WritePlan as Planned};
ghost use Rattle.fir_tick.specs.working.ArraySpans.{AreSpans};
ghost use Rattle.fir_tick.specs.working.WritePlans.{array_writes, writes_of, IsWriteFor, IsWritePlan};

use crate::roots::root_at;
use crate::spans::ArraySpan;
use fir_base::MemoryOut;
use fir_net::{ArrayWrite, FlatNet};
use fir_work::{Task, fit_task, place};
use std::alloc::Global;

/// A write of an array: the number of its clock among the clock inputs, if it has one, the places of its
/// condition and its address, where the array stands in the state, the width of its words in bits, and what
/// gives the word at that width.
#[derive(Clone, Copy)]
pub struct WritePlan {
    pub clock: Option<usize>,
    pub condition: usize,
    pub address: usize,
    pub span: ArraySpan,
    pub width: u32,
    pub given: Task,
}

/// The writes of the arrays in the order of the state, and of each array in the order of its writes.
pub fn write_plans(
    alloc: Global,
    net: &FlatNet,
    spans: &[ArraySpan],
    roots: &[Option<usize>],
) -> Result<Vec<WritePlan>, MemoryOut>
    requires whole { IsNet net.now }
    requires spans { AreSpans net.now spans.now }
    ensures { IfOk result (λ v. AllZip (IsWritePlan net.now roots.now) v.items (array_writes net.now)) }
{
    let order = net.array_order.as_slice();
    let mut plans = Vec::new(alloc);
    for number in order {
        put_plans(net, spans, roots, *number, &mut plans)?;
    }
    Ok(plans)
}

/// Appends the writes of the array of that number.
fn put_plans(
    net: &FlatNet,
    spans: &[ArraySpan],
    roots: &[Option<usize>],
    number: usize,
    plans: &mut Vec<WritePlan>,
) -> Result<(), MemoryOut>
    requires whole { IsNet net.now }
    requires spans { AreSpans net.now spans.now }
    requires there { number < length net.now.arrays }
    ensures { OnOk result ((own : List Planned) × (plans.new.items ≡ plans.old.items ++ own) × AllZip (IsWritePlan net.now roots.now) own (writes_of net.now number)) }
{
    let array = &net.arrays.as_slice()[number];
    let span = spans[number];
    let writes = array.writes.as_slice();
    for write in writes {
        plans.push(write_plan(net, roots, span, array.width, write))?;
    }
    Ok(())
}

/// The plan of a write of an array that stands there, whose words have that width.
fn write_plan(
    net: &FlatNet,
    roots: &[Option<usize>],
    span: ArraySpan,
    width: u32,
    write: &ArrayWrite,
) -> WritePlan
    requires whole { IsNet net.now }
    requires can { (signed : Bool) × IsArrayWrite net.now.leaves net.now.nodes signed width write.now }
    requires narrow { width ≤ 128 }
    ensures { IsWriteFor net.now roots.now span width write.now result }
{
    WritePlan {
        clock: root_at(roots, write.clock),
        condition: place(net, write.condition),
        address: place(net, write.address),
        span,
        width,
        given: fit_task(net, write.given, width),
    }
}

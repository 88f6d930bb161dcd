//! The items that lack a value: a division by 0, a signed quotient that does not fit, and a read or a write past the end
//! of an array (IEEE 1364-2005, 4.9, 5.1.5, 5.5).

ghost use Rattle.std.specs.Prelude.{◌≡◌, ◌<◌, ◌&&◌, IfOk, OnOk, Some, length, not, slice_get};
ghost use Rattle.std.specs.List.{list_any};
ghost use Rattle.fir_base.specs.Words.{is_among};
ghost use Rattle.ver_ast.specs.Nets.{output_clocks};
ghost use Rattle.fir_base.specs.Lists.{In};
ghost use Rattle.ver_ast.specs.declared.tree.Verilog.{Verilog as Tree};
ghost use Rattle.ver_sim.specs.working.Blocks.{IsRising};
ghost use Rattle.ver_sim.specs.working.Lacking.{can_lack, lacks, lacking_place, write_lacks};
ghost use Rattle.ver_sim.specs.working.Checks.{AreChecks, ChecksItem};
ghost use Rattle.ver_sim.specs.working.Tables.{Know};

use crate::block_tasks::write_tasks;
use crate::blocks::{WriteTask, is_named};
use crate::operand::number_of;
use crate::processes::work_of;
use crate::tables::Tables;
use crate::work::{Work, value_of};
use fir_base::MemoryOut;
use std::alloc::Global;
use ver_ast::{Assign, BinaryOp, Item, Rhs, SignedOp, VPlace, Verilog, Writing};
use ver_places::item_starts;

/// What of an item can lack a value.
pub enum Lack {
    /// The right side of an assign.
    Side(Work),
    /// A write at an edge of the clock of that number.
    Writes {
        clock: usize,
        writes: Vec<WriteTask>,
    },
}

// Not derived, so that a drop is a call, which is proved once.
impl Drop for Lack {
    fn drop(self) {
        match self {
            Lack::Side(_)
            | Lack::Writes {
                clock: _,
                writes: _,
            } => {}
        }
    }
}

/// The place of an item, and what of it can lack a value.
#[derive(Drop)]
pub struct Check {
    pub place: VPlace,
    pub lack: Lack,
}

/// Whether a write whose condition is 1 is past the end.
fn is_past(write: &WriteTask, values: &[u128]) -> bool
    ensures { result ≡ write_lacks values.now write.now }
{
    number_of(&write.condition, values) == 1
        && number_of(&write.index, values) >= write.depth as u128
}

/// Whether some write is past the end.
fn is_some_past(writes: &[WriteTask], values: &[u128]) -> bool
    ensures { result ≡ list_any (write_lacks values.now) writes.now }
{
    writes.iter().any(|write| is_past(write, values))
}

/// Whether it lacks a value where these clocks are named.
fn is_lacking(lack: &Lack, state: &[u128], named: &[usize], values: &[u128]) -> bool
    requires { IsRising named.now }
    ensures { result ≡ lacks state.now named.now values.now lack.now }
{
    match lack {
        Lack::Side(work) => value_of(work, state, values).is_none(),
        Lack::Writes { clock, writes } => {
            is_named(named, *clock) && is_some_past(writes.as_slice(), values)
        }
    }
}

/// The place of the first item that lacks a value.
pub fn first_lacking(
    checks: &[Check],
    state: &[u128],
    named: &[usize],
    values: &[u128],
) -> Option<VPlace>
    requires { IsRising named.now }
    ensures { result ≡ lacking_place state.now named.now values.now checks.now }
{
    for check in checks {
        if is_lacking(&check.lack, state, named, values) {
            return Some(check.place);
        }
    }
    None
}

/// Whether a right side of that kind can lack a value.
fn can_lack(rhs: &Rhs) -> bool
    ensures { result ≡ can_lack rhs.now }
{
    matches!(
        rhs,
        Rhs::Binary(_, BinaryOp::Div | BinaryOp::Rem, _)
            | Rhs::Signed(_, SignedOp::Div | SignedOp::Rem, _)
            | Rhs::Word(_, _)
    )
}

/// What is to be checked of the items of a tree, in text order.
pub fn checks(alloc: Global, tables: &Tables, v: &Verilog) -> Result<Vec<Check>, MemoryOut>
    requires { Know v.now tables.now }
    ensures { IfOk result (λ found. AreChecks v.now found.items v.now.items) }
{
    let starts = item_starts(alloc, v)?;
    let mut found = Vec::new(alloc);
    for (i, item) in v.items.as_slice().iter().enumerate() {
        let place = start_of(starts.as_slice(), i);
        put_check(alloc, tables, place, item, &mut found)?;
    }
    Ok(found)
}

/// The place of the item of that number, where these are the places of all.
fn start_of(starts: &[VPlace], number: usize) -> VPlace
    requires { number < length starts.now }
    ensures { slice_get starts.now number ≡ Some result }
{
    starts[number]
}

/// Appends what is to be checked of the item at that place.
fn put_check(
    alloc: Global,
    tables: &Tables,
    place: VPlace,
    item: &Item,
    out: &mut Vec<Check>,
) -> Result<(), MemoryOut>
    ensures { OnOk result ((v : Tree) → Know v tables.now → In v.items item.now → ChecksItem v place item.now out.old.items out.new.items) }
{
    match item {
        Item::Assign(assign) => put_side(alloc, tables, place, assign, out),
        Item::Writing(block) => put_writes(alloc, tables, place, block, out),
        _ => Ok(()),
    }
}

/// Whether an assign can lack a value.
fn is_checked(tables: &Tables, assign: &Assign) -> bool
    ensures { (v : Tree) → Know v tables.now → result ≡ (can_lack assign.now.rhs && not (is_among (output_clocks v) assign.now.target)) }
{
    can_lack(&assign.rhs) && !tables.is_clock_output(&assign.target)
}

/// Appends the assign at that place, where its right side can lack a value. A clock output's cannot.
fn put_side(
    alloc: Global,
    tables: &Tables,
    place: VPlace,
    assign: &Assign,
    out: &mut Vec<Check>,
) -> Result<(), MemoryOut>
    ensures { OnOk result ((v : Tree) → Know v tables.now → In v.items (Item.Assign assign.now) → ChecksItem v place (Item.Assign assign.now) out.old.items out.new.items) }
{
    if !is_checked(tables, assign) {
        return Ok(());
    }
    let width = tables.width(&assign.target);
    let work = work_of(alloc, tables, width, &assign.rhs)?;
    out.push(Check {
        place,
        lack: Lack::Side(work),
    })?;
    Ok(())
}

/// Appends the writes of the block at that place.
fn put_writes(
    alloc: Global,
    tables: &Tables,
    place: VPlace,
    block: &Writing,
    out: &mut Vec<Check>,
) -> Result<(), MemoryOut>
    ensures { OnOk result ((v : Tree) → Know v tables.now → In v.items (Item.Writing block.now) → ChecksItem v place (Item.Writing block.now) out.old.items out.new.items) }
{
    let clock = tables.clock(&block.clock);
    let writes = write_tasks(alloc, tables, block.writes.as_slice())?;
    out.push(Check {
        place,
        lack: Lack::Writes { clock, writes },
    })?;
    Ok(())
}

//! The processes of a tree as tasks.

ghost use Rattle.std.specs.Prelude.{◌≡◌, ◌≤◌, IfOk, OnOk, map, flat_map};
ghost use Rattle.fir_base.specs.Lists.{In};
ghost use Rattle.ver_ast.specs.declared.tree.Verilog.{Verilog as Tree};
ghost use Rattle.ver_ast.specs.Nets.{nets, arrays, assigns, resets, item_assign, item_block, block_reset, output_clocks};
ghost use Rattle.ver_ast.specs.Processes.{processes, assigning, showing};
ghost use Rattle.ver_ast.specs.SoundSides.{IsSound, IsSoundSide};
ghost use Rattle.ver_sim.specs.working.Reads.{IsReadOf};
ghost use Rattle.ver_sim.specs.working.Pairs.{EachPair, Appends};
ghost use Rattle.ver_sim.specs.working.Tables.{Know};
ghost use Rattle.ver_sim.specs.working.Tasks.{IsTaskOf};
ghost use Rattle.ver_sim.specs.working.WorksOf.{IsWorkOf};

use crate::declarations::Span;
use crate::read::{Read, read_operand};
use crate::tables::Tables;
use crate::task::Task;
use crate::work::Work;
use fir_base::MemoryOut;
use std::alloc::Global;
use ver_ast::{Assign, Atom, Item, Resetting, Rhs, Verilog};

/// A task for each process: the assigns of nets, and behind them the asynchronous blocks.
pub fn tasks(alloc: Global, tables: &Tables, v: &Verilog) -> Result<Vec<Task>, MemoryOut>
    requires { Know v.now tables.now }
    ensures { IfOk result (λ found. EachPair (IsTaskOf v.now) found.items (processes v.now)) }
{
    let mut found = Vec::new(alloc);
    put_assign_tasks(alloc, tables, v, &mut found)?;
    put_reset_tasks(tables, v, &mut found)?;
    Ok(found)
}

fn put_assign_tasks(
    alloc: Global,
    tables: &Tables,
    v: &Verilog,
    out: &mut Vec<Task>,
) -> Result<(), MemoryOut>
    requires { Know v.now tables.now }
    ensures { OnOk result (Appends (IsTaskOf v.now) out.old.items out.new.items (map assigning (assigns v.now))) }
{
    for item in v.items.as_slice() {
        put_assign_task(alloc, tables, item, out)?;
    }
    Ok(())
}

/// Appends the task of an assign of a net.
fn put_assign_task(
    alloc: Global,
    tables: &Tables,
    item: &Item,
    out: &mut Vec<Task>,
) -> Result<(), MemoryOut>
    ensures { OnOk result ((v : Tree) → Know v tables.now → In v.items item.now → Appends (IsTaskOf v) out.old.items out.new.items (map assigning (item_assign (output_clocks v) item.now))) }
{
    if let Item::Assign(assign) = item
        && !tables.is_clock_output(&assign.target)
    {
        let task = assign_task(alloc, tables, assign)?;
        out.push(task)?;
    }
    Ok(())
}

fn put_reset_tasks(tables: &Tables, v: &Verilog, out: &mut Vec<Task>) -> Result<(), MemoryOut>
    requires { Know v.now tables.now }
    ensures { OnOk result (Appends (IsTaskOf v.now) out.old.items out.new.items (map showing (resets v.now))) }
{
    for item in v.items.as_slice() {
        put_reset_task(tables, item, out)?;
    }
    Ok(())
}

/// Appends the task of an asynchronous block.
fn put_reset_task(tables: &Tables, item: &Item, out: &mut Vec<Task>) -> Result<(), MemoryOut>
    ensures { OnOk result ((v : Tree) → Know v tables.now → In v.items item.now → Appends (IsTaskOf v) out.old.items out.new.items (map showing (flat_map block_reset (item_block item.now)))) }
{
    if let Item::Resetting(block) = item {
        out.push(reset_task(tables, block))?;
    }
    Ok(())
}

/// The task of an assign.
fn assign_task(alloc: Global, tables: &Tables, assign: &Assign) -> Result<Task, MemoryOut>
    ensures { IfOk result (λ t. (v : Tree) → Know v tables.now → In (assigns v) assign.now → IsTaskOf v t (assigning assign.now)) }
{
    let width = tables.width(&assign.target);
    let target = tables.place(&assign.target);
    let work = work_of(alloc, tables, width, &assign.rhs)?;
    Ok(Task { target, work })
}

/// The task of an asynchronous block.
fn reset_task(tables: &Tables, block: &Resetting) -> Task
    ensures { (v : Tree) → Know v tables.now → In (resets v) block.now → IsTaskOf v result (showing block.now) }
{
    let work = Work::Reset {
        reset: tables.place(&block.reset),
        value: block.value.number.unwrap_or(0),
        word: tables.span(&block.target).base,
    };
    Task {
        target: tables.place(&block.target),
        work,
    }
}

/// The work of a right side beside a target of that width.
pub fn work_of(alloc: Global, tables: &Tables, width: u32, rhs: &Rhs) -> Result<Work, MemoryOut>
    ensures { IfOk result (λ w. (v : Tree) → Know v tables.now → width ≤ 128 → IsSoundSide (nets v) (arrays v) width rhs.now → IsWorkOf v w width rhs.now) }
{
    match rhs {
        Rhs::Atom(a) => {
            let a = read_operand(alloc, tables, a)?;
            Ok(Work::Show(a.operand))
        }
        Rhs::Unary(op, a) => {
            let a = read_operand(alloc, tables, a)?;
            Ok(Work::Unary(*op, a.width, a.operand))
        }
        Rhs::Binary(a, op, b) => {
            let (a, b) = read_pair(alloc, tables, a, b)?;
            Ok(Work::Binary(*op, width, a.operand, b.operand))
        }
        Rhs::Signed(a, op, b) => {
            let (a, b) = read_pair(alloc, tables, a, b)?;
            Ok(Work::Signed(*op, a.width, a.operand, b.operand))
        }
        Rhs::SignedShift(a, b) => {
            let (a, b) = read_pair(alloc, tables, a, b)?;
            Ok(Work::SignedShift(a.width, width, a.operand, b.operand))
        }
        Rhs::Conditional(condition, a, b) => {
            let condition = read_operand(alloc, tables, condition)?;
            let (a, b) = read_pair(alloc, tables, a, b)?;
            Ok(Work::Choose(condition.operand, a.operand, b.operand))
        }
        Rhs::Word(array, index) => {
            let index = read_operand(alloc, tables, index)?;
            Ok(word_of(tables.span(array), index))
        }
    }
}

/// The work of a word of an array.
fn word_of(span: Span, index: Read) -> Work
    ensures { result ≡ Work.Word span.base span.depth index.operand }
{
    Work::Word {
        base: span.base,
        depth: span.depth,
        index: index.operand,
    }
}

/// Two operands by number.
fn read_pair(alloc: Global, tables: &Tables, a: &Atom, b: &Atom) -> Result<(Read, Read), MemoryOut>
    ensures first { IfOk result (λ r. (v : Tree) → Know v tables.now → IsSound (nets v) a.now → IsReadOf v r.0 a.now) }
    ensures second { IfOk result (λ r. (v : Tree) → Know v tables.now → IsSound (nets v) b.now → IsReadOf v r.1 b.now) }
{
    let first = read_operand(alloc, tables, a)?;
    let second = read_operand(alloc, tables, b)?;
    Ok((first, second))
}

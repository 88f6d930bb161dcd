//! The blocks of a tree by number.

ghost use Rattle.std.specs.Prelude.{IfOk, OnOk};
ghost use Rattle.fir_base.specs.Lists.{In};
ghost use Rattle.std.specs.List.{AllByRecursion};
ghost use Rattle.ver_ast.specs.declared.tree.Verilog.{Verilog as Tree};
ghost use Rattle.ver_ast.specs.Nets.{nets, blocks, clocks, item_block, plain_block, resetting_block, writing_block};
ghost use Rattle.ver_ast.specs.SoundSides.{IsSound};
ghost use Rattle.ver_ast.specs.Valid.{IsPlain, IsResetting};
ghost use Rattle.ver_sim.specs.working.Blocks.{IsBlockTaskOf, IsEdgeTaskOf, IsWriteTaskOf, AreEdgeTasks, HasSoundEdge, IsSomeWrite};
ghost use Rattle.ver_sim.specs.working.Pairs.{EachPair, Appends};
ghost use Rattle.ver_sim.specs.working.Tables.{Know};

use crate::blocks::{BlockTask, EdgeTask, WriteTask};
use crate::read::read_operand;
use crate::tables::Tables;
use fir_base::{MemoryOut, Name};
use std::alloc::Global;
use ver_ast::{Always, Atom, Edge, Item, Resetting, Verilog, Write, Writing};

/// A task for each block, in text order.
pub fn block_tasks(alloc: Global, tables: &Tables, v: &Verilog) -> Result<Vec<BlockTask>, MemoryOut>
    requires { Know v.now tables.now }
    ensures { IfOk result (λ found. EachPair (IsBlockTaskOf v.now) found.items (blocks v.now)) }
{
    let mut found = Vec::new(alloc);
    put_block_tasks(alloc, tables, v, &mut found)?;
    Ok(found)
}

fn put_block_tasks(
    alloc: Global,
    tables: &Tables,
    v: &Verilog,
    out: &mut Vec<BlockTask>,
) -> Result<(), MemoryOut>
    requires { Know v.now tables.now }
    ensures { OnOk result (Appends (IsBlockTaskOf v.now) out.old.items out.new.items (blocks v.now)) }
{
    for item in v.items.as_slice() {
        put_block_task(alloc, tables, item, out)?;
    }
    Ok(())
}

/// Appends the task of an item that is a block.
fn put_block_task(
    alloc: Global,
    tables: &Tables,
    item: &Item,
    out: &mut Vec<BlockTask>,
) -> Result<(), MemoryOut>
    ensures { OnOk result ((v : Tree) → Know v tables.now → In v.items item.now → Appends (IsBlockTaskOf v) out.old.items out.new.items (item_block item.now)) }
{
    match item {
        Item::Always(block) => {
            let task = plain_task(alloc, tables, block)?;
            out.push(task)?;
        }
        Item::Resetting(block) => {
            let task = resetting_task(alloc, tables, block)?;
            out.push(task)?;
        }
        Item::Writing(block) => {
            let task = writing_task(alloc, tables, block)?;
            out.push(task)?;
        }
        _ => {}
    }
    Ok(())
}

fn plain_task(alloc: Global, tables: &Tables, block: &Always) -> Result<BlockTask, MemoryOut>
    ensures { IfOk result (λ t. (v : Tree) → Know v tables.now → IsPlain v block.now → IsBlockTaskOf v t (plain_block block.now)) }
{
    let word = tables.span(&block.target).base;
    let edge = edge_task(alloc, tables, &block.clock, &block.source)?;
    Ok(BlockTask::Plain { word, edge })
}

fn resetting_task(alloc: Global, tables: &Tables, block: &Resetting) -> Result<BlockTask, MemoryOut>
    ensures { IfOk result (λ t. (v : Tree) → Know v tables.now → IsResetting v block.now → IsBlockTaskOf v t (resetting_block block.now)) }
{
    let reset = tables.place(&block.reset);
    let word = tables.span(&block.target).base;
    let value = block.value.number.unwrap_or(0);
    let edge = some_edge_task(alloc, tables, &block.edge)?;
    Ok(BlockTask::Resetting {
        reset,
        value,
        word,
        edge,
    })
}

/// What a register takes at an edge, where it takes something.
fn some_edge_task(
    alloc: Global,
    tables: &Tables,
    edge: &Option<Edge>,
) -> Result<Option<EdgeTask>, MemoryOut>
    ensures { IfOk result (λ o. (v : Tree) → Know v tables.now → HasSoundEdge v edge.now → AreEdgeTasks v o edge.now) }
{
    match edge {
        None => Ok(None),
        Some(edge) => {
            let task = edge_task(alloc, tables, &edge.clock, &edge.source)?;
            Ok(Some(task))
        }
    }
}

fn edge_task(
    alloc: Global,
    tables: &Tables,
    clock: &Name,
    source: &Atom,
) -> Result<EdgeTask, MemoryOut>
    ensures { IfOk result (λ e. (v : Tree) → Know v tables.now → In (clocks v) clock.now → IsSound (nets v) source.now → IsEdgeTaskOf v e clock.now source.now) }
{
    let clock = tables.clock(clock);
    let source = read_operand(alloc, tables, source)?;
    Ok(EdgeTask {
        clock,
        source: source.operand,
    })
}

fn writing_task(alloc: Global, tables: &Tables, block: &Writing) -> Result<BlockTask, MemoryOut>
    ensures { IfOk result (λ t. (v : Tree) → Know v tables.now → In (clocks v) block.now.clock → AllByRecursion (IsSomeWrite v) block.now.writes → IsBlockTaskOf v t (writing_block block.now)) }
{
    let clock = tables.clock(&block.clock);
    let writes = write_tasks(alloc, tables, block.writes.as_slice())?;
    Ok(BlockTask::Writing { clock, writes })
}

/// A task for each write.
pub fn write_tasks(
    alloc: Global,
    tables: &Tables,
    writes: &[Write],
) -> Result<Vec<WriteTask>, MemoryOut>
    ensures { IfOk result (λ found. (v : Tree) → Know v tables.now → AllByRecursion (IsSomeWrite v) writes.now → EachPair (IsWriteTaskOf v) found.items writes.now) }
{
    let mut found = Vec::new(alloc);
    for write in writes {
        let task = write_task(alloc, tables, write)?;
        found.push(task)?;
    }
    Ok(found)
}

fn write_task(alloc: Global, tables: &Tables, write: &Write) -> Result<WriteTask, MemoryOut>
    ensures { IfOk result (λ t. (v : Tree) → Know v tables.now → IsSomeWrite v write.now → IsWriteTaskOf v t write.now) }
{
    let span = tables.span(&write.array);
    let condition = read_operand(alloc, tables, &write.condition)?;
    let index = read_operand(alloc, tables, &write.index)?;
    let source = read_operand(alloc, tables, &write.source)?;
    Ok(WriteTask {
        base: span.base,
        depth: span.depth,
        condition: condition.operand,
        index: index.operand,
        source: source.operand,
    })
}

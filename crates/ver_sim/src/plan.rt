//! What a simulator finds once of its tree.

ghost use Rattle.std.specs.Prelude.{IfOk};
ghost use Rattle.ver_sim.specs.working.Running.{IsPlan};
ghost use Rattle.ver_sim.specs.working.Tables.{Know};

use crate::block_tasks::block_tasks;
use crate::blocks::BlockTask;
use crate::inputs::input_places;
use crate::lacking::{Check, checks};
use crate::order::task_order;
use crate::outputs::output_places;
use crate::processes::tasks;
use crate::shown::{ShownWord, shown_words};
use crate::tables::Tables;
use crate::task::Task;
use fir_base::MemoryOut;
use std::alloc::Global;
use ver_ast::Verilog;

/// A task for each process, and their numbers in an order in which each stands behind those that drive what it reads; a
/// task for each block; the nets that show words of the state; and the nets of the inputs, and those of the outputs, in
/// port order; and the items that can lack a value.
#[derive(Drop)]
pub struct Plan {
    pub tasks: Vec<Task>,
    pub order: Vec<u64>,
    pub blocks: Vec<BlockTask>,
    pub shown: Vec<ShownWord>,
    pub inputs: Vec<usize>,
    pub outputs: Vec<usize>,
    pub checks: Vec<Check>,
}

impl Plan {
    /// The plan of a tree, of which these are the tables.
    pub fn new(alloc: Global, tables: &Tables, v: &Verilog) -> Result<Plan, MemoryOut>
        requires { Know v.now tables.now }
        ensures { IfOk result (λ p. IsPlan v.now p) }
    {
        let inputs = input_places(alloc, tables, v)?;
        let outputs = output_places(alloc, tables, v)?;
        let shown = shown_words(alloc, tables, v)?;
        let checks = checks(alloc, tables, v)?;
        let tasks = tasks(alloc, tables, v)?;
        let order = task_order(alloc, tables, tasks.as_slice())?;
        let blocks = block_tasks(alloc, tables, v)?;
        Ok(Plan {
            tasks,
            order,
            blocks,
            shown,
            inputs,
            outputs,
            checks,
        })
    }
}

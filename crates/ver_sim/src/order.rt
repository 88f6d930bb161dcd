//! The order in which a tick takes the processes: each behind those that drive what it reads, so that one step of each
//! is enough.

ghost use Rattle.std.specs.Prelude.{◌≡◌, ℕ, ◌+◌, ◌^◌, ◌<◌, IfOk, OnSome, Some, length, map, slice_get};
ghost use Rattle.ver_ast.specs.declared.tree.Verilog.{Verilog};
ghost use Rattle.ver_sim.specs.working.Orders.{HasNoCircle, HaveTargets, IsTaskGraph, IsTaskOrder, drivers_of, sources_of};
ghost use Rattle.ver_sim.specs.working.Tables.{Know};
ghost use Rattle.ver_sim.specs.working.Tasks.{AreTasks};
ghost use Rattle.ver_sim.specs.working.Works.{work_places};

use crate::drivers::{drivers_by_place, work_drivers};
use crate::tables::Tables;
use crate::task::Task;
use fir_base::{MemoryOut, Refused, Seq};
use fir_graph::{Graph, order};
use std::alloc::Global;

/// The numbers of the processes of the tables' tree, of which these are the tasks, in an order in which each stands once,
/// behind those that drive what it reads. It takes time in proportion to the tasks with their operands.
pub fn task_order(alloc: Global, tables: &Tables, tasks: &[Task]) -> Result<Vec<u64>, MemoryOut>
    requires { (v : Verilog) × Know v tables.now × AreTasks v tasks.now }
    ensures { IfOk result (λ order. IsTaskOrder tasks.now order.items) }
{
    let found = found_order(alloc, tasks, tables.net_count())?;
    numbers(alloc, found.as_slice())
}

/// The same numbers.
fn numbers(alloc: Global, order: &[usize]) -> Result<Vec<u64>, MemoryOut>
    ensures { IfOk result (λ found. found.items ≡ order.now) }
{
    let mut found = Vec::new(alloc);
    for number in order {
        found.push(*number as u64)?;
    }
    Ok(found)
}

/// Such an order of tasks with targets below that number, as there is no circle of them.
fn found_order(alloc: Global, tasks: &[Task], places: usize) -> Result<Vec<usize>, MemoryOut>
    requires targets { HaveTargets tasks.now places }
    requires acyclic { HasNoCircle tasks.now }
    ensures { IfOk result (λ order. IsTaskOrder tasks.now order.items) }
{
    let graph = TaskGraph::new(alloc, tasks, places)?;
    match order(alloc, &graph) {
        Ok(order) => Ok(order),
        Err(Refused::Fault(_)) => unreachable!(),
        Err(Refused::Memory) => Err(MemoryOut),
    }
}

/// For each task the tasks that drive what it reads.
#[derive(Drop)]
struct TaskGraph {
    sources: Vec<Seq<usize>>,
    ghost within: { (k place j : ℕ) → slice_get (sources_of sources.items k) place ≡ Some j → j < length sources.items },
}

impl TaskGraph {
    fn new(alloc: Global, tasks: &[Task], places: usize) -> Result<TaskGraph, MemoryOut>
        requires { HaveTargets tasks.now places }
        ensures { IfOk result (λ g. IsTaskGraph tasks.now g.sources.items) }
    {
        Ok(TaskGraph {
            sources: sources(alloc, tasks, places)?,
        })
    }
}

impl Graph for TaskGraph {
    ghost size = { λ g. length g.sources.items };

    ghost targets = { λ g. sources_of g.sources.items };

    fn size(&self) -> usize {
        self.sources.len()
    }

    fn target(&self, vertex: usize, place: usize) -> Option<usize> {
        source_at(self.sources.as_slice(), vertex, place)
    }
}

fn source_at(sources: &[Seq<usize>], vertex: usize, place: usize) -> Option<usize>
    ensures found { result ≡ slice_get (sources_of sources.now vertex) place }
    ensures room { OnSome result (place + 1 < 2 ^ 64) }
{
    sources.get(vertex)?.as_slice().get(place).copied()
}

/// For each task the tasks that drive what it reads.
fn sources(alloc: Global, tasks: &[Task], places: usize) -> Result<Vec<Seq<usize>>, MemoryOut>
    requires { HaveTargets tasks.now places }
    ensures { IfOk result (λ found. IsTaskGraph tasks.now found.items) }
{
    let drivers = drivers_by_place(alloc, tasks, places)?;
    sources_by(alloc, drivers.as_slice(), tasks)
}

fn sources_by(
    alloc: Global,
    drivers: &[Option<usize>],
    tasks: &[Task],
) -> Result<Vec<Seq<usize>>, MemoryOut>
    ensures { IfOk result (λ found. found.items ≡ map (λ t. drivers_of drivers.now (work_places t.work)) tasks.now) }
{
    let mut found = Vec::new(alloc);
    for task in tasks {
        found.push(work_drivers(alloc, drivers, &task.work)?)?;
    }
    Ok(found)
}

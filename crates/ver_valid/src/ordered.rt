//! The order of the processes of a tree, or a circle of them.

ghost use Rattle.std.specs.Prelude.{◌≡◌, ℕ, ◌+◌, ◌^◌, ◌<◌, ◌++◌, ◌∷◌, [], List, IfOk, OnOk, OnSome, IsTrue, Some, length, map, slice_get, ◌↔◌};
ghost use Rattle.fir_base.specs.Lists.{In, Distinct, EachIn};
ghost use Rattle.ver_ast.specs.Names.{rhs_names};
ghost use Rattle.ver_ast.specs.Nets as tree;
ghost use Rattle.ver_ast.specs.Nets.{input_nets, plain_regs, names_of};
ghost use Rattle.ver_ast.specs.Processes.{Process, processes, process_targets, process_reads};
ghost use Rattle.ver_ast.specs.Valid.{IsOrder};
ghost use Rattle.ver_valid.specs.working.Circles.{FindsCircle};
ghost use Rattle.ver_valid.specs.working.Drivers.{drivers_of, IsProcessGraph, targets_of};

use crate::drivers::Drivers;
use crate::processes::{asynchronous_blocks, net_assigns};
use crate::reads::{net_drivers, rhs_drivers};
use fir_base::{MemoryOut, Refused, Seq};
use fir_graph::{Graph, order};
use std::alloc::Global;
use ver_ast::{Assign, Resetting, Verilog};

/// Whether the processes can be put in an order in which each stands once, after all that it reads. It takes time
/// in proportion to the tree, but for what look-ups take.
pub fn has_order(alloc: Global, v: &Verilog) -> Result<bool, MemoryOut>
    requires distinct { Distinct (process_targets (processes v.now)) }
    requires known { (p : Process) → In (processes v.now) p → EachIn (process_reads p) (names_of (input_nets v.now ++ plain_regs v.now) ++ process_targets (processes v.now)) }
    ensures { IfOk result (λ b. IsTrue b ↔ ((order : List Process) × IsOrder v.now order)) }
{
    match closed_walk(alloc, v)? {
        None => Ok(true),
        Some(_) => Ok(false),
    }
}

/// None where the processes can be put in such an order; else a shortest circle through its first process, by the numbers
/// of processes, the assigns of nets before the asynchronous blocks, each in text order: each reads what the next one
/// gives, the last what the first gives, and none stands twice. It takes time in proportion to the tree, but for what
/// look-ups take.
pub fn closed_walk(alloc: Global, v: &Verilog) -> Result<Option<Seq<usize>>, MemoryOut>
    requires distinct { Distinct (process_targets (processes v.now)) }
    requires known { (p : Process) → In (processes v.now) p → EachIn (process_reads p) (names_of (input_nets v.now ++ plain_regs v.now) ++ process_targets (processes v.now)) }
    ensures { IfOk result (FindsCircle v.now) }
{
    let graph = ProcessGraph::new(alloc, v)?;
    match order(alloc, &graph) {
        Ok(_) => Ok(None),
        Err(Refused::Fault(circle)) => Ok(Some(circle)),
        Err(Refused::Memory) => Err(MemoryOut),
    }
}

/// For each process of a tree, the assigns of nets before the asynchronous blocks, the processes that drive what it
/// reads.
#[derive(Drop)]
struct ProcessGraph {
    targets: Vec<Seq<usize>>,
    ghost within: { (v place t : ℕ) → slice_get (targets_of targets.items v) place ≡ Some t → t < length targets.items },
}

impl ProcessGraph {
    fn new(alloc: Global, v: &Verilog) -> Result<ProcessGraph, MemoryOut>
        ensures { IfOk result (λ g. IsProcessGraph v.now g.targets.items) }
    {
        Ok(ProcessGraph {
            targets: process_drivers(alloc, v)?,
        })
    }
}

impl Graph for ProcessGraph {
    ghost size = { λ g. length g.targets.items };

    ghost targets = { λ g. targets_of g.targets.items };

    fn size(&self) -> usize {
        self.targets.len()
    }

    fn target(&self, vertex: usize, place: usize) -> Option<usize> {
        target_at(self.targets.as_slice(), vertex, place)
    }
}

fn target_at(targets: &[Seq<usize>], vertex: usize, place: usize) -> Option<usize>
    ensures found { result ≡ slice_get (targets_of targets.now vertex) place }
    ensures room { OnSome result (place + 1 < 2 ^ 64) }
{
    targets.get(vertex)?.as_slice().get(place).copied()
}

/// For each process the processes that drive what it reads.
fn process_drivers(alloc: Global, v: &Verilog) -> Result<Vec<Seq<usize>>, MemoryOut>
    ensures { IfOk result (λ found. IsProcessGraph v.now found.items) }
{
    let assigns = net_assigns(alloc, v)?;
    drivers_beside(alloc, v, assigns.as_slice())
}

/// The same, where these are the assigns of nets.
fn drivers_beside<'a>(
    alloc: Global,
    v: &'a Verilog,
    assigns: &[&'a Assign],
) -> Result<Vec<Seq<usize>>, MemoryOut>
    requires { map (λ a. a.now) assigns.now ≡ tree.assigns v.now }
    ensures { IfOk result (λ found. IsProcessGraph v.now found.items) }
{
    let blocks = asynchronous_blocks(alloc, v)?;
    drivers_of_all(alloc, v, assigns, blocks.as_slice())
}

/// The same, where these are the assigns of nets and the asynchronous blocks.
fn drivers_of_all<'a>(
    alloc: Global,
    v: &'a Verilog,
    assigns: &[&'a Assign],
    blocks: &[&'a Resetting],
) -> Result<Vec<Seq<usize>>, MemoryOut>
    requires assigns { map (λ a. a.now) assigns.now ≡ tree.assigns v.now }
    requires blocks { map (λ b. b.now) blocks.now ≡ tree.resets v.now }
    ensures { IfOk result (λ found. IsProcessGraph v.now found.items) }
{
    let drivers = Drivers::new(alloc, v, assigns, blocks)?;
    drivers_by(alloc, &drivers, assigns, blocks)
}

/// For each assign, and behind them for each block, the processes that drive what it reads.
fn drivers_by<'a>(
    alloc: Global,
    drivers: &Drivers,
    assigns: &[&'a Assign],
    blocks: &[&'a Resetting],
) -> Result<Vec<Seq<usize>>, MemoryOut>
    ensures { IfOk result (λ found. found.items ≡ map (λ a. drivers_of drivers.now (rhs_names a.now.rhs)) assigns.now ++ map (λ b. drivers_of drivers.now (b.now.reset ∷ [])) blocks.now) }
{
    let mut found = assign_drivers(alloc, drivers, assigns)?;
    put_block_drivers(&mut found, alloc, drivers, blocks)?;
    Ok(found)
}

/// For each assign the processes that drive what it reads.
fn assign_drivers(
    alloc: Global,
    drivers: &Drivers,
    assigns: &[&Assign],
) -> Result<Vec<Seq<usize>>, MemoryOut>
    ensures { IfOk result (λ found. found.items ≡ map (λ a. drivers_of drivers.now (rhs_names a.now.rhs)) assigns.now) }
{
    let mut found = Vec::new(alloc);
    for assign in assigns {
        found.push(rhs_drivers(alloc, drivers, &assign.rhs)?)?;
    }
    Ok(found)
}

/// Appends for each asynchronous block the process that drives its reset, if one does.
fn put_block_drivers(
    found: &mut Vec<Seq<usize>>,
    alloc: Global,
    drivers: &Drivers,
    blocks: &[&Resetting],
) -> Result<(), MemoryOut>
    ensures { OnOk result (found.new.items ≡ found.old.items ++ map (λ b. drivers_of drivers.now (b.now.reset ∷ [])) blocks.now) }
{
    for block in blocks {
        found.push(net_drivers(alloc, drivers, &block.reset)?)?;
    }
    Ok(())
}

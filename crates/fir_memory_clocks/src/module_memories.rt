//! The memories of modules that have two ports on different clocks (FIRRTL spec, "Memories").

ghost use Rattle.std.specs.Prelude.{◌≡◌, ◌++◌, IfOk, List};
ghost use Rattle.fir_meaning.specs.Lack.{is_before};
ghost use Rattle.fir_meaning.specs.working.LeafModules.{LeafModule as Viewed, MemoryDeclared};
ghost use Rattle.fir_memory_clocks.specs.working.ModuleMemories.{AreFirstMemories, IsFirstAmong, IsFirstByRoots, IsFirstOf, IsFoundAlone, IsFoundIn};

use crate::clock_roots::clock_roots;
use crate::held_modules::{held_modules, is_held};
use crate::two_clocks::{TwoClocks, two_clocks};
use fir_ast::Place;
use fir_base::MemoryOut;
use fir_elaborate::ModuleCopy;
use fir_leaf_circuit::{LeafModule, MemoryClocks};
use fir_whens::{ModuleNet, NetRole};
use std::alloc::Global;

/// A memory of which two ports are on different clocks: its place, how many are declared before it, and these clocks.
#[derive(Clone, Copy)]
pub struct FoundMemory {
    pub place: Place,
    pub declaration: usize,
    pub clocks: TwoClocks,
}

/// The first such memory of each module that has a copy in the design, by the numbers of the modules. The nets are
/// those of the modules.
pub fn found_in_modules(
    alloc: Global,
    modules: &[LeafModule],
    nets: &[ModuleNet],
    copies: &[ModuleCopy],
) -> Result<Vec<Option<FoundMemory>>, MemoryOut>
    ensures { IfOk result (λ found. AreFirstMemories modules.now nets.now copies.now found.items) }
{
    let held = held_modules(alloc, modules.len(), copies)?;
    let mut found = Vec::new(alloc);
    for number in 0..modules.len() {
        found.push(found_in(alloc, modules, nets, &held, number)?)?;
    }
    Ok(found)
}

/// That of the module of a number, where it is one of those that have copies.
fn found_in(
    alloc: Global,
    modules: &[LeafModule],
    nets: &[ModuleNet],
    held: &[bool],
    number: usize,
) -> Result<Option<FoundMemory>, MemoryOut>
    ensures { IfOk result (IsFoundIn modules.now nets.now held.now number) }
{
    if !is_held(held, number) {
        return Ok(None);
    }
    let Some(module) = modules.get(number) else {
        return Ok(None);
    };
    let Some(net) = nets.get(number) else {
        return Ok(None);
    };
    first_in_module(alloc, module, net)
}

/// The first of a module with this net.
fn first_in_module(
    alloc: Global,
    module: &LeafModule,
    net: &ModuleNet,
) -> Result<Option<FoundMemory>, MemoryOut>
    ensures { IfOk result (λ found. IsFirstOf «module».now net.now found) }
{
    if module.memories.is_empty() {
        return Ok(None);
    }
    let roots = clock_roots(alloc, &net.roles)?;
    Ok(first_memory(module, &roots))
}

/// The first of a module whose leaves have these roots.
fn first_memory(module: &LeafModule, roots: &[Option<usize>]) -> Option<FoundMemory>
    ensures { IsFirstByRoots «module».now roots.now result }
{
    let mut first = None;
    for memory in &module.memories {
        first = earlier(first, found_memory(module, roots, memory));
    }
    first
}

/// The memory, where it is such.
fn found_memory(
    module: &LeafModule,
    roots: &[Option<usize>],
    memory: &MemoryClocks,
) -> Option<FoundMemory>
    ensures { IsFoundAlone «module».now roots.now memory.now result }
{
    let clocks = two_clocks(roots, &memory.port_clocks)?;
    let port = memory.port_clocks.first()?;
    let leaf = module.leaves.get(*port)?;
    Some(FoundMemory {
        place: leaf.place,
        declaration: memory.declaration,
        clocks,
    })
}

/// The earlier of two, of which each may be missing; of the same place the first.
fn earlier(first: Option<FoundMemory>, other: Option<FoundMemory>) -> Option<FoundMemory>
    ensures { (m : Viewed) (xs ys : List MemoryDeclared) → IsFirstAmong m xs first → IsFirstAmong m ys other → IsFirstAmong m (xs ++ ys) result }
{
    match (first, other) {
        (Some(one), Some(other)) => Some(if is_before(other.place, one.place) {
            other
        } else {
            one
        }),
        (Some(one), None) => Some(one),
        (None, other) => other,
    }
}

/// Whether a place comes before another in the text.
pub fn is_before(one: Place, other: Place) -> bool
    ensures { result ≡ is_before one other }
{
    one.line < other.line || one.line == other.line && one.col < other.col
}

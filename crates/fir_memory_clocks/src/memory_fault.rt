//! The first fault of the clocks of memories of a design (E26; FIRRTL spec, "Memories", "Clock Type", "Instances").

ghost use Rattle.std.specs.Prelude.{◌≡◌, ◌++◌, ℕ, IfOk, List, map};
ghost use Rattle.fir_ast.specs.working.Views.{circuit_of};
ghost use Rattle.fir_leaf_text.specs.working.TextsOfLeaves.{IsTextOf};
ghost use Rattle.fir_memory_clocks.specs.working.MemoriesTold.{AreClearCopies, AreNamesOf, IsToldOf, TellsSite};

use crate::first_site::{Site, first_site};
use crate::module_memories::found_in_modules;
use fir_ast::FirFault;
use fir_base::{MemoryOut, Name};
use fir_design::has_one_tree;
use fir_design_faults::memory_faults_stand_by_path;
use fir_elaborate::ModuleCopy;
use fir_leaf_circuit::LeafCircuit;
use fir_leaf_text::leaf_text;
use fir_whens::{NetCircuit, modules_are_typed};
use std::alloc::Global;

/// E26 of a circuit in whose design, of which these are the copies of modules, no clock is unclear: that two ports of a
/// memory are on different clocks, told of the first memory in the text, and of the first copy of its module. The names
/// are those of what each module declares. It takes time in proportion to the leaves of the circuit's modules and to
/// the copies.
pub fn memory_clock_fault(
    alloc: Global,
    circuit: &NetCircuit,
    names: &[Vec<Name>],
    copies: &[ModuleCopy],
) -> Result<Option<FirFault>, MemoryOut>
    requires names { AreNamesOf (circuit_of circuit.now) (map (λ ns. ns.items) names.now) }
    requires copies { AreClearCopies (circuit_of circuit.now) copies.now }
    ensures { IfOk result (IsToldOf (circuit_of circuit.now) copies.now) }
{
    has_one_tree();
    memory_faults_stand_by_path();
    let leafed = circuit.leafed();
    modules_are_typed(leafed);
    let found = found_in_modules(alloc, leafed.modules(), circuit.nets(), copies)?;
    let Some(site) = first_site(&found, copies) else {
        return Ok(None);
    };
    fault_at(alloc, leafed, names, copies, site)
}

/// The fault of a memory that was found.
fn fault_at(
    alloc: Global,
    circuit: &LeafCircuit,
    names: &[Vec<Name>],
    copies: &[ModuleCopy],
    site: Site,
) -> Result<Option<FirFault>, MemoryOut>
    ensures { IfOk result (TellsSite (circuit_of circuit.now) (map (λ ns. ns.items) names.now) copies.now site) }
{
    let Some(copy) = copies.get(site.copy) else {
        return Ok(None);
    };
    let Some(declared) = names.get(copy.module_number) else {
        return Ok(None);
    };
    let Some(name) = declared.get(site.memory.declaration) else {
        return Ok(None);
    };
    let prefix = copy.prefix.as_bytes();
    let memory = behind(alloc, prefix, name)?;
    let clock = clock_path(alloc, circuit, copy, site.memory.clocks.clock)?;
    let other_clock = clock_path(alloc, circuit, copy, site.memory.clocks.other_clock)?;
    let place = site.memory.place;
    Ok(Some(FirFault::MemoryClocks(place, memory, clock, other_clock)))
}

/// The path of a leaf of a copy's module, behind what stands before it.
fn clock_path(
    alloc: Global,
    circuit: &LeafCircuit,
    copy: &ModuleCopy,
    leaf: usize,
) -> Result<Name, MemoryOut>
    ensures { IfOk result (λ path. (text : List ℕ) × IsTextOf (circuit_of circuit.now) copy.now.module_number leaf text × (path ≡ copy.now.prefix ++ text)) }
{
    let text = leaf_text(alloc, circuit, copy.module_number, leaf)?;
    behind(alloc, copy.prefix.as_bytes(), &text)
}

/// A name behind what stands before it.
fn behind(alloc: Global, prefix: &[u8], name: &Name) -> Result<Name, MemoryOut>
    ensures { IfOk result (λ path. path ≡ prefix.now ++ name.now) }
{
    let mut path = Vec::from_slice(alloc, prefix)?;
    path.extend_from_slice(name.as_bytes())?;
    Ok(Name::from_vec(path))
}

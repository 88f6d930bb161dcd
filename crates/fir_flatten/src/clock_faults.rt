//! The first fault of clocks of a design (E25; FIRRTL spec, "Clock Type", "Instances").

ghost use Rattle.std.specs.Prelude.{◌≡◌, ◌+◌, ◌<◌, ◌++◌, ℕ, IfOk, List, Option, Some, length, map, slice_get};
ghost use Rattle.fir_meaning.specs.ModuleScenes.{Scene};
ghost use Rattle.fir_meaning.specs.working.LeafModules.{LeafModule as Viewed, leaf_at};
ghost use Rattle.fir_meaning.specs.working.LeafedModules.{leafed_module};
ghost use Rattle.fir_leaf.specs.working.ClockFaults.{clock_path};
ghost use Rattle.fir_leaf.specs.working.ModuleCircuits.{module_circuit};
ghost use Rattle.fir_elaborate.specs.declared.elaborated.ModuleCopy.{ModuleCopy as CopyOfCode};
ghost use Rattle.fir_flatten.specs.working.DesignNets.{ArePartsOf, IsPartOf};
ghost use Rattle.fir_flatten.specs.working.FirstSites.{AreNamed, IsFirstAhead, IsSiteOf, TellsFirst, TellsSite};

use crate::clock_evidence::{clock_evidence, is_unclear};
use crate::design_net::ModulePart;
use crate::index_places::is_before;
use fir_ast::{FirFault, Place};
use fir_base::{MemoryOut, Name};
use fir_elaborate::ModuleCopy;
use fir_leaf_circuit::LeafType;
use std::alloc::Global;

/// A leaf of a copy of a module.
#[derive(Clone, Copy)]
struct Site {
    copy: usize,
    leaf: usize,
    place: Place,
}

/// That of the first leaf in the text, and of the copies of its module of the first, where each module declares these
/// names.
pub fn clock_fault(
    alloc: Global,
    modules: &[ModulePart],
    names: &[Vec<Name>],
    copies: &[ModuleCopy],
) -> Result<Option<FirFault>, MemoryOut>
    ensures { IfOk result (λ f. TellsFirst modules.now (map (λ ns. ns.items) names.now) copies.now f) }
{
    let Some(site) = first_site(modules, copies) else {
        return Ok(None);
    };
    fault_at(alloc, modules, names, copies, site)
}

/// The first of the leaves whose clock is unclear, of all copies.
fn first_site(modules: &[ModulePart], copies: &[ModuleCopy]) -> Option<Site>
    ensures { (scenes : List Scene) → ArePartsOf scenes modules.now → IsFirstAhead scenes copies.now (length copies.now) 0 result }
{
    let mut first = None;
    for number in 0..copies.len() {
        first = first_with_copy(modules, copies, number, first);
    }
    first
}

/// The first of those found so far and of those of the copy of a number, which stands behind them.
fn first_with_copy(
    modules: &[ModulePart],
    copies: &[ModuleCopy],
    number: usize,
    found: Option<Site>,
) -> Option<Site>
    ensures { (scenes : List Scene) → ArePartsOf scenes modules.now → IsFirstAhead scenes copies.now number 0 found → IsFirstAhead scenes copies.now (number + 1) 0 result }
{
    let Some(copy) = copies.get(number) else {
        return found;
    };
    match modules.get(copy.module_number) {
        Some(module) => first_in_module(module, number, found),
        None => found,
    }
}

/// The same, of a copy of this module.
fn first_in_module(module: &ModulePart, copy: usize, found: Option<Site>) -> Option<Site>
    ensures { (scenes : List Scene) (copies : List CopyOfCode) (k : CopyOfCode) (s : Scene) → slice_get copies copy ≡ Some k → slice_get scenes k.module_number ≡ Some s → IsPartOf (leafed_module s) «module».now → IsFirstAhead scenes copies copy 0 found → IsFirstAhead scenes copies copy (length (leafed_module s).leaves) result }
{
    let mut first = found;
    for leaf in 0..module.part.leaves.len() {
        first = earlier_site(first, site_of(module, copy, leaf));
    }
    first
}

/// The leaf of a copy of this module, where its clock is unclear.
fn site_of(module: &ModulePart, copy: usize, leaf: usize) -> Option<Site>
    ensures { (m : Viewed) → IsPartOf m «module».now → IsSiteOf m copy leaf result }
{
    let declared = module.part.leaves.get(leaf)?;
    let role = module.net.roles.get(leaf)?;
    if is_unclear(module.net.nodes.as_slice(), declared.holds, *role) {
        return Some(Site {
            copy,
            leaf,
            place: declared.place,
        });
    }
    None
}

/// The earlier of two, of which each may be missing; of the same place the one that was found before.
fn earlier_site(found: Option<Site>, site: Option<Site>) -> Option<Site>
    ensures { (scenes : List Scene) (copies : List CopyOfCode) (k : CopyOfCode) (s : Scene) (i z : ℕ) → slice_get copies i ≡ Some k → slice_get scenes k.module_number ≡ Some s → IsFirstAhead scenes copies i z found → IsSiteOf (leafed_module s) i z site → IsFirstAhead scenes copies i (z + 1) result }
{
    match (found, site) {
        (Some(one), Some(other)) => Some(if is_before(other.place, one.place) {
            other
        } else {
            one
        }),
        (Some(one), None) => Some(one),
        (None, other) => other,
    }
}

/// The fault at such a leaf.
fn fault_at(
    alloc: Global,
    modules: &[ModulePart],
    names: &[Vec<Name>],
    copies: &[ModuleCopy],
    site: Site,
) -> Result<Option<FirFault>, MemoryOut>
    ensures { IfOk result (λ f. TellsSite modules.now (map (λ ns. ns.items) names.now) copies.now site f) }
{
    let Some(copy) = copies.get(site.copy) else {
        return Ok(None);
    };
    let Some(module) = modules.get(copy.module_number) else {
        return Ok(None);
    };
    let Some(names) = names.get(copy.module_number) else {
        return Ok(None);
    };
    let Some(evidence) = clock_evidence(alloc, module.part, site.leaf)? else {
        return Ok(None);
    };
    let path = told_path(alloc, module, names, copy, site.leaf)?;
    Ok(Some(FirFault::Clock(site.place, path, evidence.one, evidence.other)))
}

/// The path by which a fault tells a clock leaf; of a register it is the register's own.
fn told_path(
    alloc: Global,
    module: &ModulePart,
    names: &[Name],
    copy: &ModuleCopy,
    leaf: usize,
) -> Result<Name, MemoryOut>
    ensures { IfOk result (λ p. (m : Viewed) → IsPartOf m «module».now → AreNamed m names.now → leaf < length m.leaves → p ≡ copy.now.prefix ++ clock_path (module_circuit m) leaf (leaf_at m.leaves leaf).holds) }
{
    let mut path = Vec::from_slice(alloc, copy.prefix.as_bytes())?;
    path.extend_from_slice(told_text(module, names, leaf))?;
    Ok(Name::from_vec(path))
}

/// The same path in the module.
fn told_text<'a>(module: &'a ModulePart, names: &'a [Name], leaf: usize) -> &'a [u8]
    ensures { (m : Viewed) → IsPartOf m «module».now → AreNamed m names.now → leaf < length m.leaves → result.now ≡ clock_path (module_circuit m) leaf (leaf_at m.leaves leaf).holds }
{
    let Some(declared) = module.part.leaves.get(leaf) else {
        return b"";
    };
    match declared.holds {
        LeafType::Clock => text_at(&module.texts, leaf),
        LeafType::Number(_) => text_at(names, declared.declaration),
    }
}

/// The text of a number.
fn text_at(texts: &[Name], number: usize) -> &[u8]
    ensures { (t : List ℕ) → slice_get texts.now number ≡ Some t → result.now ≡ t }
{
    match texts.get(number) {
        Some(text) => text.as_bytes(),
        None => b"",
    }
}

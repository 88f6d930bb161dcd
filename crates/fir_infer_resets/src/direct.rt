//! Walks that make no detour through a vector's elements.

ghost use Rattle.std.specs.Prelude.{◌<◌, ◌↔◌, IfOk, IsTrue, length};
ghost use Rattle.fir_infer_resets.specs.working.DirectWalks.{AreElementEnds, EndsInDetour, IsDirect, Replaces, ReplacesHead};
ghost use Rattle.fir_infer_resets.specs.working.ResetGraphs.{AllBelow};

use crate::element_paths::are_element_paths;
use crate::graph::Kind;
use crate::item::{End, Item};
use fir_base::MemoryOut;
use std::alloc::Global;

/// A walk without each Reset that stands between the same leaf of two elements of one vector: those are joined
/// themselves.
pub fn without_detours(alloc: Global, ends: &[End], walk: &[usize]) -> Result<Vec<usize>, MemoryOut>
    requires { AllBelow (length ends.now) walk.now }
    ensures replaces { IfOk result (λ kept. Replaces ends.now walk.now kept.items) }
    ensures direct { IfOk result (λ kept. IsDirect ends.now kept.items) }
{
    let mut kept = Vec::new(alloc);
    for number in walk {
        drop_detours(ends, &mut kept, *number);
        kept.push(*number)?;
    }
    Ok(kept)
}

/// Drops the last of the numbers, as long as it stands between two elements, the one before it and the next.
fn drop_detours(ends: &[End], kept: &mut Vec<usize>, next: usize)
    requires kept { AllBelow (length ends.now) kept.old.items }
    requires next { next < length ends.now }
    ensures replaces { ReplacesHead ends.now next kept.old.items kept.new.items }
    ensures direct { EndsInDetour ends.now kept.new.items next → ⊥ }
{
    while ends_in_detour(ends, kept.as_slice(), next) {
        kept.pop();
    }
}

/// Whether the last of the numbers stands between two elements.
fn ends_in_detour(ends: &[End], kept: &[usize], next: usize) -> bool
    requires kept { AllBelow (length ends.now) kept.now }
    requires next { next < length ends.now }
    ensures { IsTrue result ↔ EndsInDetour ends.now kept.now next }
{
    let count = kept.len();
    if count < 2 {
        return false;
    }
    are_elements(&ends[kept[count - 2]], &ends[next])
}

/// Whether two ends are Resets, and the same leaf of two elements of one vector.
fn are_elements(one: &End, other: &End) -> bool
    ensures { IsTrue result ↔ AreElementEnds one.now other.now }
{
    let Item::Leaf(module_number, path) = &one.item else {
        return false;
    };
    let Item::Leaf(other_number, other_path) = &other.item else {
        return false;
    };
    one.kind == Kind::Reset
        && other.kind == Kind::Reset
        && one.place == other.place
        && module_number == other_number
        && are_element_paths(path.as_slice(), other_path.as_slice())
}

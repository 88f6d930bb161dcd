//! The first memory of a design that was found in its module (FIRRTL spec, "Instances").

ghost use Rattle.std.specs.Prelude.{◌+◌, ℕ, List, Option, length};
ghost use Rattle.fir_elaborate.specs.declared.elaborated.ModuleCopy.{ModuleCopy as CopyOfCode};
ghost use Rattle.fir_memory_clocks.specs.declared.module_memories.FoundMemory.{FoundMemory as FoundOfCode};
ghost use Rattle.fir_memory_clocks.specs.working.FirstMemories.{IsFirstBefore, IsSiteOf};

use crate::module_memories::{FoundMemory, is_before};
use fir_elaborate::ModuleCopy;

/// A memory that was found in the module of the copy of a number.
#[derive(Clone, Copy)]
pub struct Site {
    pub copy: usize,
    pub memory: FoundMemory,
}

/// The first in the text of those that were found in the modules of copies, by the numbers of the modules; of the same
/// place that of the first copy.
pub fn first_site(found: &[Option<FoundMemory>], copies: &[ModuleCopy]) -> Option<Site>
    ensures { IsFirstBefore found.now copies.now (length copies.now) result }
{
    let mut first = None;
    for number in 0..copies.len() {
        first = earlier_site(first, site_of(found, copies, number));
    }
    first
}

/// That of the copy of a number.
fn site_of(found: &[Option<FoundMemory>], copies: &[ModuleCopy], number: usize) -> Option<Site>
    ensures { IsSiteOf found.now copies.now number result }
{
    let copy = copies.get(number)?;
    let memory = found.get(copy.module_number)?;
    match *memory {
        Some(memory) => Some(Site {
            copy: number,
            memory,
        }),
        None => None,
    }
}

/// The earlier of two, of which each may be missing; of the same place the first.
fn earlier_site(first: Option<Site>, other: Option<Site>) -> Option<Site>
    ensures { (found : List (Option FoundOfCode)) (copies : List CopyOfCode) (n : ℕ) → IsFirstBefore found copies n first → IsSiteOf found copies n other → IsFirstBefore found copies (n + 1) result }
{
    match (first, other) {
        (Some(one), Some(other)) => Some(if is_before(other.memory.place, one.memory.place) {
            other
        } else {
            one
        }),
        (Some(one), None) => Some(one),
        (None, other) => other,
    }
}

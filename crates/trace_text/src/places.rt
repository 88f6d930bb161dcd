//! Where each name's words stand in the state.

ghost use Rattle.std.specs.Prelude.{◌≡◌, ◌≤◌, IfOk, IfSome, Ok, None, map, sum_by};
ghost use Rattle.fir_base.specs.Lists.{Distinct};
ghost use Rattle.trace_text.specs.working.Shapes.{array_size, word_limit};
ghost use Rattle.trace_text.specs.working.Places.{HasPlaces};

use crate::shape::{FoundWord, StateWord};
use crate::shape_rules::size;
use fir_base::{MemoryOut, Name};
use std::alloc::Global;
use std::collections::BTreeMap;

/// What each name of the state stands for. None where a name stands twice.
pub fn places_of(
    alloc: Global,
    state: &[StateWord],
) -> Result<Option<BTreeMap<Name, FoundWord>>, MemoryOut>
    requires { sum_by array_size state.now ≤ word_limit }
    ensures places { IfOk result (λ o. IfSome o (λ m. HasPlaces m state.now)) }
    ensures once { IfOk result (λ o. IfSome o (λ _. Distinct (map (λ s. s.name) state.now))) }
    ensures twice { result ≡ Ok None → Distinct (map (λ s. s.name) state.now) → ⊥ }
{
    let mut places = BTreeMap::new(alloc);
    let mut place = 0;
    for word in state {
        let found = FoundWord {
            place,
            width: word.width,
            depth: word.depth,
        };
        if places.insert(word.name.copy(alloc)?, found)?.is_some() {
            return Ok(None);
        }
        place += size(word) as usize;
    }
    Ok(Some(places))
}

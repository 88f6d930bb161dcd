//! The places of items.

ghost use Rattle.std.specs.Prelude.{◌≡◌, ℕ, ◌<◌, IfOk, Some, length, slice_get};
ghost use Rattle.ver_places.specs.working.ItemPlaces.{starts_of};
ghost use Rattle.ver_places.specs.ItemPlaces.{item_place};

use crate::passed::{behind_item, behind_ports};
use crate::places::{behind, place_at};
use fir_base::{MemoryOut, Seq};
use std::alloc::Global;
use ver_ast::{Item, VPlace, Verilog};

/// For each item the place of its first word; line 0, column 0 where no text was read.
pub fn item_starts(alloc: Global, v: &Verilog) -> Result<Seq<VPlace>, MemoryOut>
    ensures each { IfOk result (λ s. length s ≡ length v.now.items) }
    ensures starts { IfOk result (λ s. (k : ℕ) → k < length v.now.items → slice_get s k ≡ Some (item_place v.now k)) }
{
    let ports = behind(v.places.as_slice(), 2);
    let items = behind_ports(ports, v.ports.as_slice());
    let starts = starts_from(alloc, items, v.items.as_slice())?;
    Ok(Seq::from_vec(starts))
}

/// The places of items that have the first of these places.
fn starts_from(alloc: Global, places: &[VPlace], items: &[Item]) -> Result<Vec<VPlace>, MemoryOut>
    ensures { IfOk result (λ s. s.items ≡ starts_of items.now places.now) }
{
    let mut starts = Vec::new(alloc);
    let mut next = places;
    for item in items {
        starts.push(place_at(next, 0))?;
        next = behind_item(next, item);
    }
    Ok(starts)
}

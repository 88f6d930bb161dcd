//! The items that give names their values.

ghost use Rattle.std.specs.Prelude.{◌≡◌, ◌↔◌, IfOk, IsTrue};
ghost use Rattle.fir_base.specs.Lists.{In};
ghost use Rattle.ver_ast.specs.declared.tree.Item.{Item as Part};
ghost use Rattle.ver_loop.specs.Loops.{IsClosedWalk, item_gives};
ghost use Rattle.ver_loop.specs.working.Rounds.{FindsGiver, IsFirstPlace, IsGivingPlace};

use fir_base::{MemoryOut, Name};
use std::alloc::Global;
use ver_ast::{Item, VPlace, Verilog};
use ver_places::{item_starts, place_at};

/// The place of the item that gives the first name of a closed walk its value.
pub fn first_place(alloc: Global, v: &Verilog, walk: &[Name]) -> Result<VPlace, MemoryOut>
    requires { IsClosedWalk v.now walk.now }
    ensures { IfOk result (IsFirstPlace v.now walk.now) }
{
    match walk.first() {
        Some(first) => giving_place(alloc, v, first),
        None => unreachable!(),
    }
}

/// The place of the first item that gives a name its value.
fn giving_place(alloc: Global, v: &Verilog, name: &Name) -> Result<VPlace, MemoryOut>
    requires { (i : Part) × In v.now.items i × In (item_gives i) name.now }
    ensures { IfOk result (IsGivingPlace v.now name.now) }
{
    let starts = item_starts(alloc, v)?;
    match giving_item(v.items.as_slice(), name) {
        Some(number) => Ok(place_at(starts.as_slice(), number)),
        None => unreachable!(),
    }
}

/// The number of the first item that gives a name its value, if one does.
fn giving_item(items: &[Item], name: &Name) -> Option<usize>
    ensures { FindsGiver items.now name.now result }
{
    for (number, item) in items.iter().enumerate() {
        if is_given(item, name) {
            return Some(number);
        }
    }
    None
}

/// Whether an item gives a name its value.
fn is_given(item: &Item, name: &Name) -> bool
    ensures { IsTrue result ↔ In (item_gives item.now) name.now }
{
    match item {
        Item::Assign(assign) => assign.target.as_bytes() == name.as_bytes(),
        Item::Resetting(block) => block.target.as_bytes() == name.as_bytes(),
        _ => false,
    }
}

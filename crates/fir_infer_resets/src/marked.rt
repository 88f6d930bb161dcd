//! The Resets that a search has marked, by the numbers of their leaves.

ghost use Rattle.std.specs.Prelude.{◌≡◌, ℕ, IfOk, OnOk, Option, Some, length, option_map};
ghost use Rattle.fir_ast.specs.working.Views.{circuit_of};
ghost use Rattle.fir_types.specs.working.TypedModules.{IsTyped};
ghost use Rattle.fir_type_table.specs.working.Saturated.{saturated};
ghost use Rattle.fir_infer_resets.specs.working.Holding.{item_of};
ghost use Rattle.fir_reset.specs.working.Inferred.{leaf_number};
ghost use Rattle.fir_infer_resets.specs.working.MarkedLeaves.{AlsoSet, AreMarkedLeaves, IsNumberOf};

use crate::graph::Kind;
use crate::item::{End, Item};
use crate::leaf_numbers::number_of;
use fir_base::MemoryOut;
use fir_names::Named;
use fir_reset::ResetMap;
use fir_types::Findings;
use std::alloc::Global;

/// The map of those ends that are Resets and marked. It has no more numbers than it needs.
pub fn map_of(
    alloc: Global,
    named: &Named,
    findings: &Findings,
    ends: &[End],
    marks: &[bool],
) -> Result<ResetMap, MemoryOut>
    requires typed { IsTyped (circuit_of named.now) findings.now }
    requires long { length marks.now ≡ length ends.now }
    ensures { IfOk result (AreMarkedLeaves (circuit_of named.now) ends.now marks.now) }
{
    let mut found = Vec::new(alloc);
    for (place, marked) in marks.iter().enumerate() {
        if *marked {
            set_end(named, findings, &ends[place], &mut found)?;
        }
    }
    Ok(ResetMap::new(found))
}

/// Sets the number of an end that is a Reset.
fn set_end(
    named: &Named,
    findings: &Findings,
    end: &End,
    found: &mut Vec<bool>,
) -> Result<(), MemoryOut>
    requires { IsTyped (circuit_of named.now) findings.now }
    ensures { OnOk result (AlsoSet (IsNumberOf (circuit_of named.now) end.now) found.old.items found.new.items) }
{
    match end.kind {
        Kind::Reset => set_item(named, findings, &end.item, found),
        Kind::Other | Kind::Unsigned | Kind::Asynchronous => Ok(()),
    }
}

/// Sets the number of a leaf.
fn set_item(
    named: &Named,
    findings: &Findings,
    item: &Item,
    found: &mut Vec<bool>,
) -> Result<(), MemoryOut>
    requires { IsTyped (circuit_of named.now) findings.now }
    ensures { OnOk result (AlsoSet (λ n. leaf_number (circuit_of named.now) (item_of item.now) ≡ Some n) found.old.items found.new.items) }
{
    match item {
        Item::Leaf(module_number, path) => {
            set_number(found, number_of(named, findings, *module_number, path))
        }
        Item::Value(_) => Ok(()),
    }
}

/// Sets a number that stands still at 2^64 - 1, for which no list has room.
fn set_number(found: &mut Vec<bool>, number: Option<u64>) -> Result<(), MemoryOut>
    ensures { (meant : Option ℕ) → number ≡ option_map saturated meant → OnOk result (AlsoSet (λ n. meant ≡ Some n) found.old.items found.new.items) }
{
    let Some(number) = number else {
        return Ok(());
    };
    let number = number as usize;
    let length = number.checked_add(1).ok_or(MemoryOut)?;
    if found.len() < length {
        found.resize(length, false)?;
    }
    found[number] = true;
    Ok(())
}

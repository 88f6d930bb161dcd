//! Where the value of each leaf is so far.

ghost use Rattle.std.specs.Prelude.{◌≡◌, ℕ, IfOk, OnOk, if◌then◌else◌, length, map, nat_eq};
ghost use Rattle.fir_merge.specs.working.Entries.{BoundsBelow};
ghost use Rattle.fir_merge.specs.working.NodeTerms.{IsBelow};
ghost use Rattle.fir_drivers.specs.working.Slots.{Merges, PutsBack, SlotsBecome, slot_at};

use fir_base::MemoryOut;
use fir_merge::{Bound, NetNodes, add_choice};
use std::alloc::Global;

/// The bounds of some leaves; of one that has none, nothing.
pub fn slots_of(
    alloc: Global,
    slots: &[Bound],
    leaves: &[usize],
    nothing: &Bound,
) -> Result<Vec<Bound>, MemoryOut>
    ensures { IfOk result (λ bs. bs.items ≡ map (slot_at slots.now nothing.now) leaves.now) }
{
    let mut bounds = Vec::new(alloc);
    for leaf in leaves {
        bounds.push(slot_at(slots, *leaf, nothing))?;
    }
    Ok(bounds)
}

/// The bound of a leaf; of one that has none, nothing.
pub fn slot_at(slots: &[Bound], leaf: usize, nothing: &Bound) -> Bound
    ensures { result ≡ slot_at slots.now nothing.now leaf }
{
    match slots.get(leaf) {
        Some(bound) => *bound,
        None => *nothing,
    }
}

/// Gives a leaf a bound.
pub fn set_slot(slots: &mut Vec<Bound>, leaf: usize, bound: Bound)
    ensures { SlotsBecome slots.old.items slots.new.items (λ x b. if nat_eq leaf x then bound else b) }
{
    if leaf < slots.len() {
        slots[leaf] = bound;
    }
}

/// Gives some leaves the bounds that they had, in their order.
pub fn put_back(slots: &mut Vec<Bound>, leaves: &[usize], bounds: &[Bound])
    ensures { (f : ℕ → Bound) → bounds.now ≡ map f leaves.now → PutsBack slots.old.items slots.new.items leaves.now f }
{
    for (leaf, bound) in leaves.iter().zip(bounds) {
        set_slot(slots, *leaf, *bound);
    }
}

/// Gives each of some leaves the choice between two bounds, in the order of the leaves.
pub fn merge(
    net: &mut NetNodes,
    slots: &mut Vec<Bound>,
    condition: &Bound,
    leaves: &[usize],
    first: &[Bound],
    second: &[Bound],
) -> Result<(), MemoryOut>
    requires slots { BoundsBelow (length net.old) slots.old.items }
    requires condition { IsBelow (length net.old) condition.now.read }
    requires first { BoundsBelow (length net.old) first.now }
    requires second { BoundsBelow (length net.old) second.now }
    ensures below { OnOk result (BoundsBelow (length net.new) slots.new.items) }
    ensures merges { OnOk result ((f g : ℕ → Bound) → first.now ≡ map f leaves.now → second.now ≡ map g leaves.now → Merges net.old net.new slots.old.items slots.new.items condition.now leaves.now f g) }
{
    let count = leaves.len().min(first.len()).min(second.len());
    for place in 0..count {
        let chosen = add_choice(net, *condition, first[place], second[place])?;
        set_slot(slots, leaves[place], chosen);
    }
    Ok(())
}

//! The dynamic indices that lead to a leaf (FIRRTL spec, "Sub-accesses").

ghost use Rattle.std.specs.Prelude.{ℕ, IfNone, IfOk, IfSome, List};
ghost use Rattle.fir_leaf.specs.working.Nodes.{entries, picks_at};
ghost use Rattle.fir_meaning.specs.working.TermValues.{Holds};
ghost use Rattle.fir_net.specs.declared.node.Node.{Node as NetNode};
ghost use Rattle.fir_merge.specs.working.Entries.{BoundsBelow, EntriesStand, IndicesBelow, IndicesStand};
ghost use Rattle.fir_merge.specs.working.Steps.{IsNoStep, IsStep};

use crate::bound::Bound;
use fir_base::MemoryOut;
use fir_driven::index_at;
use fir_leaf::Node;
use std::alloc::Global;

/// A dynamic index: where its value is, how many elements there are, and how many leaves apart.
#[derive(Clone, Copy)]
pub struct Index {
    pub bound: Bound,
    pub length: u128,
    pub stride: u64,
}

/// An index, and the place of the one before it.
#[derive(Clone, Copy)]
struct Step {
    index: Index,
    before: Option<usize>,
}

/// The indices up to the one at a place, the last first.
pub fn indices_at(
    alloc: Global,
    nodes: &[Node],
    bounds: &[Bound],
    picks: Option<usize>,
) -> Result<Vec<Index>, MemoryOut>
    ensures below { (n : ℕ) → BoundsBelow n bounds.now → IfOk result (λ is. IndicesBelow n is.items) }
    ensures stand { (holds : Holds) (net : List NetNode) → EntriesStand holds net bounds.now (entries nodes.now) → IfOk result (λ is. IndicesStand holds net is.items (picks_at (entries nodes.now) picks)) }
{
    let mut indices = Vec::new(alloc);
    let mut next = picks;
    while let Some(step) = step_at(nodes, bounds, next) {
        indices.push(step.index)?;
        next = step.before;
    }
    Ok(indices)
}

/// The index at a place, where there is one.
fn step_at(nodes: &[Node], bounds: &[Bound], picks: Option<usize>) -> Option<Step>
    ensures step { IfSome result (IsStep nodes.now bounds.now picks) }
    ensures none { IfNone result (IsNoStep nodes.now bounds.now picks) }
{
    let bound = bounds.get(picks?)?;
    let pick = index_at(nodes, picks)?;
    Some(Step {
        index: Index {
            bound: *bound,
            length: pick.length,
            stride: pick.stride,
        },
        before: pick.before,
    })
}

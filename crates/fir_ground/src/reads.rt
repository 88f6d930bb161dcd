//! Nodes for the leaves of a target.

ghost use Rattle.std.specs.Prelude.{◌≡◌, ◌+◌, ◌≤◌, ℕ, IfOk, length};
ghost use Rattle.fir_meaning.specs.working.Leafed.{target_terms};
ghost use Rattle.fir_leaf.specs.working.Nodes.{Gives, entries, picks_at};
ghost use Rattle.fir_meaning.specs.working.Targets.{Target as Meant};
ghost use Rattle.fir_meaning.specs.working.Terms.{Picks};
ghost use Rattle.fir_type_table.specs.working.Tables.{types_of};
ghost use Rattle.fir_leaf_pairs.specs.working.TargetNames.{Names, PicksWithin};
ghost use Rattle.fir_leaf_pairs.specs.working.Reads.{IsWithinCost, reads_from};

use crate::absent::read_absent;
use fir_base::MemoryOut;
use fir_leaf::{Node, add};
use fir_leaf_pairs::Target;
use fir_type_table::TypeTable;
use fir_types::found::leaves;
use std::alloc::Global;

/// A node for each leaf of a target, in the order of its type.
pub fn read_all(
    alloc: Global,
    table: &TypeTable,
    nodes: &mut Vec<Node>,
    target: Target,
) -> Result<Vec<usize>, MemoryOut>
    ensures { (meant : Meant) → Names (types_of table.now) nodes.old.items target meant → IsWithinCost meant → IfOk result (λ ids. Gives nodes.old.items nodes.new.items ids.items (target_terms meant)) }
{
    match target.base {
        Some(base) => {
            let count = leaves(table, target.found);
            Ok(read_from(alloc, nodes, base, count, target.picks)?)
        }
        None => Ok(read_absent(alloc, table, nodes, target.found, target.picks)?),
    }
}

/// So many leaves from the one of a number on, behind the indices up to a pick.
fn read_from(
    alloc: Global,
    nodes: &mut Vec<Node>,
    base: usize,
    count: u64,
    picks: Option<usize>,
) -> Result<Vec<usize>, MemoryOut>
    ensures { (ps : Picks) → base + count ≤ usize.MAX → PicksWithin (length nodes.old.items) picks → picks_at (entries nodes.old.items) picks ≡ ps → IfOk result (λ ids. Gives nodes.old.items nodes.new.items ids.items (reads_from base count ps)) }
{
    let mut ids = Vec::new(alloc);
    for leaf in 0..count {
        let id = add(nodes, Node::Read(base.saturating_add(leaf as usize), picks))?;
        ids.push(id)?;
    }
    Ok(ids)
}

//! Where the leaves of what a module declares begin.

ghost use Rattle.std.specs.Prelude.{◌≡◌, ◌≤◌, IfOk, map};
ghost use Rattle.fir_meaning.specs.CostGroup.{cost_limit};
ghost use Rattle.fir_meaning.specs.Costs.{leaves_where};
ghost use Rattle.fir_meaning.specs.TypedScopes.{TypedScope};
ghost use Rattle.fir_type_table.specs.working.Saturated.{saturated};
ghost use Rattle.fir_type_table.specs.working.Tables.{types_of};
ghost use Rattle.fir_types.specs.working.Seen.{seen};
ghost use Rattle.fir_meaning.specs.working.Targets.{leaves_so_far};
ghost use Rattle.fir_ground.specs.working.Statements.{firsts_from};

use fir_base::MemoryOut;
use fir_type_table::TypeTable;
use fir_types::Found;
use fir_types::found::leaves;
use std::alloc::Global;

/// The number of the first leaf of each declaration of a module, in the order of the text, where the leaves
/// of all are numbered one behind the other. Where they are more than a circuit may cost, the numbers stand
/// still at 2^64 - 1.
pub fn first_leaves(
    alloc: Global,
    table: &TypeTable,
    declared: &[Option<Found>],
) -> Result<Vec<usize>, MemoryOut>
    ensures { IfOk result (λ firsts. (scope : TypedScope) → map (seen (types_of table.now)) declared.now ≡ map (λ k. k.data_type) scope → leaves_so_far scope ≤ cost_limit → firsts.items ≡ firsts_from 0 scope) }
{
    let mut firsts = Vec::new(alloc);
    let mut next: u64 = 0;
    for found in declared {
        firsts.push(next as usize)?;
        next = next.saturating_add(leaves_of_found(table, *found));
    }
    Ok(firsts)
}

/// The leaves of a declaration, none where it has no type; at most 2^64 - 1.
fn leaves_of_found(table: &TypeTable, found: Option<Found>) -> u64
    ensures { result ≡ saturated (leaves_where (seen (types_of table.now) found)) }
{
    match found {
        Some(found) => leaves(table, found),
        None => 0,
    }
}

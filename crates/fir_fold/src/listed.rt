//! A set of nodes as a list.

ghost use Rattle.std.specs.Prelude.{◌≡◌, IfOk};

use fir_base::MemoryOut;
use fir_net::Node;
use indexmap::IndexSet;
use std::alloc::Global;

/// The nodes, by their numbers.
pub fn listed(alloc: Global, nodes: IndexSet<Node>) -> Result<Vec<Node>, MemoryOut>
    ensures { IfOk result (λ v. v.items ≡ nodes.keys) }
{
    let list: Vec<Node> = nodes.into_iter().collect(alloc)?;
    Ok(list)
}

//! Nodes of which no two are equal.

ghost use Rattle.std.specs.Prelude.{◌≡◌, IfOk, OnErr};
ghost use Rattle.fir_net.specs.working.Shares.{Shares};

use crate::node::Node;
use fir_ast::NodeId;
use fir_base::MemoryOut;
use indexmap::IndexSet;

/// The number of the node, which is put behind the nodes where no equal one is among them. Only memory can
/// be wanting; then the nodes are as before.
pub fn share(nodes: &mut IndexSet<Node>, node: Node) -> Result<NodeId, MemoryOut>
    ensures ok { IfOk result (λ k. Shares nodes.old.keys nodes.new.keys node k) }
    ensures err { OnErr result (nodes.new.keys ≡ nodes.old.keys) }
{
    let (number, _) = nodes.insert_full(node)?;
    Ok(NodeId::new(number))
}

//! Nodes of a net, each of which reads nodes before it, and no two of which are equal.

ghost use Rattle.std.specs.Prelude.{◌≡◌, [], IfOk, length};
ghost use Rattle.fir_merge.specs.working.NodeTerms.{AreBelow, ReadBefore, Stands};
ghost use Rattle.fir_net.specs.working.Dependence.{support_of};

use fir_ast::NodeId;
use fir_base::MemoryOut;
use fir_net::{Node, share};
use indexmap::IndexSet;
use std::alloc::Global;
use std::marker::Model;

/// Nodes behind each other, which contracts see as a list.
#[derive(Drop)]
pub struct NetNodes {
    nodes: IndexSet<Node>,
}

impl Model for NetNodes {
    ghost use Rattle.std.specs.Prelude.{List};
    ghost use Rattle.fir_net.specs.declared.node.Node.{Node};
    ghost use Rattle.fir_merge.specs.working.NodeTerms.{ReadBefore};

    ghost Value = { List Node };

    ghost view = { λ n. n.nodes.keys };

    ghost invariant = { λ n. ReadBefore 0 n.nodes.keys };
}

impl NetNodes {
    /// No nodes.
    pub fn new(alloc: Global) -> NetNodes
        ensures { result ≡ [] }
    {
        NetNodes {
            nodes: IndexSet::new(alloc),
        }
    }

    /// The nodes, by their numbers. Each reads nodes before it.
    pub fn as_slice(&self) -> &[Node]
        ensures nodes { result.now ≡ self.now }
        ensures before { ReadBefore 0 self.now }
    {
        self.nodes.as_slice()
    }

    /// The number of the node, which is put behind the nodes where no equal one is among them.
    pub fn add(&mut self, node: Node) -> Result<NodeId, MemoryOut>
        requires { AreBelow (length self.old) (support_of node) }
        ensures { IfOk result (Stands self.old self.new node) }
    {
        share(&mut self.nodes, node)
    }
}

//! What is known of the leaves and nodes that there are.

ghost use Rattle.std.specs.Prelude.{◌≡◌, IfNone, IfSome};
ghost use Rattle.fir_net.specs.working.IsNet.{node_type, read_type};
ghost use Rattle.fir_fold_rules.specs.working.Simplifies.{IsLiteralNode};
ghost use Rattle.fir_fold_rules.specs.working.Terms.{IsLiteral};

use fir_bits::{NO_TYPE, Num, NumTy};
use fir_net::{Leaf, Node, Read};
use indexmap::IndexSet;

/// The type of a leaf or a node.
pub fn read_type(leaves: &[Leaf], nodes: &IndexSet<Node>, read: &Read) -> NumTy
    ensures { result ≡ read_type leaves.now nodes.now.keys read.now }
{
    match read {
        Read::Leaf(leaf) => match leaves.get(leaf.number()) {
            Some(leaf) => NumTy {
                signed: leaf.signed,
                width: leaf.width,
            },
            None => NO_TYPE,
        },
        Read::Node(node) => match nodes.get_index(node.number()) {
            Some(node) => node_type(node),
            None => NO_TYPE,
        },
    }
}

/// The type of what a node computes.
pub fn node_type(node: &Node) -> NumTy
    ensures { result ≡ node_type node.now }
{
    match node {
        Node::Literal(value) => value.ty(),
        Node::Operation(operation) => NumTy {
            signed: operation.signed,
            width: operation.width,
        },
        Node::Mux(mux) => NumTy {
            signed: mux.signed,
            width: mux.width,
        },
    }
}

/// The value of a node that is a literal.
pub fn literal(nodes: &IndexSet<Node>, read: &Read) -> Option<Num>
    ensures some { IfSome result (IsLiteral nodes.now.keys read.now) }
    ensures none { IfNone result (IsLiteralNode nodes.now.keys read.now → ⊥) }
{
    let Read::Node(number) = read else {
        return None;
    };
    match nodes.get_index(number.number()) {
        Some(Node::Literal(value)) => Some(*value),
        _ => None,
    }
}

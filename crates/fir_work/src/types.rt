//! The types of leaves and nodes.

ghost use Rattle.std.specs.Prelude.{◌≡◌};
ghost use Rattle.fir_net.specs.working.IsNet.{node_type, read_type};
ghost use Rattle.fir_work.specs.working.Numbers.{type_read};

use fir_bits::{NO_TYPE, NumTy};
use fir_net::{FlatNet, Leaf, Node, Read};

/// The type that the net gives a leaf or a node.
pub fn type_read(net: &FlatNet, read: &Read) -> NumTy
    ensures { result ≡ type_read net.now read.now }
{
    read_type(net.leaves.as_slice(), net.nodes.as_slice(), read)
}

/// The type of a leaf or a node of these, or that of no bits.
pub fn read_type(leaves: &[Leaf], nodes: &[Node], read: &Read) -> NumTy
    ensures { result ≡ read_type leaves.now nodes.now read.now }
{
    match read {
        Read::Leaf(leaf) => match leaves.get(leaf.number()) {
            Some(leaf) => NumTy {
                signed: leaf.signed,
                width: leaf.width,
            },
            None => NO_TYPE,
        },
        Read::Node(node) => match nodes.get(node.number()) {
            Some(node) => node_type(node),
            None => NO_TYPE,
        },
    }
}

/// The type of what a node computes.
fn node_type(node: &Node) -> NumTy
    ensures { result ≡ node_type node.now }
{
    match node {
        Node::Literal(value) => value.ty(),
        Node::Operation(operation) => NumTy {
            signed: operation.signed,
            width: operation.width,
        },
        Node::Mux(mux) => NumTy {
            signed: mux.signed,
            width: mux.width,
        },
    }
}

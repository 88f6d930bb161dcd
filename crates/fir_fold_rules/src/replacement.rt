//! What stands in the place of a node.

use fir_net::{Node, Read};

/// A leaf or a node that is there already, or a node that is put behind the others.
#[derive(Drop)]
pub enum Replacement {
    Read(Read),
    Node(Node),
}

//! Where the numbers of leaves and nodes stand in one list.

ghost use Rattle.std.specs.Prelude.{◌≡◌};
ghost use Rattle.fir_net.specs.working.Dependence.{IsOf};
ghost use Rattle.fir_work.specs.working.Numbers.{place};

use fir_net::{FlatNet, Read};

/// The place of a leaf or a node of a net: a leaf's is its number, and nodes stand behind all leaves.
pub fn place(net: &FlatNet, read: Read) -> usize
    requires { IsOf net.now read }
    ensures { result ≡ place net.now read }
{
    match read {
        Read::Leaf(leaf) => leaf.number(),
        Read::Node(node) => {
            let (leaves, nodes) = (net.leaves.as_slice(), net.nodes.as_slice());
            prove!(node.number() < nodes.len());
            leaves.len() + node.number()
        }
    }
}

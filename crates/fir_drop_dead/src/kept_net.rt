//! The kept leaves and nodes of a net, as a net with an order.

ghost use Rattle.std.specs.Prelude.{◌≡◌, IfOk, map};
ghost use Rattle.fir_drop_dead.specs.working.Moved.{kept_net, kept_order, moved_array, moved_leaf, moved_leaf_number, moved_node};
ghost use Rattle.fir_drop_dead.specs.working.Numbers.{kept_of};

use crate::kept::Kept;
use crate::moved::{moved_array, moved_leaf};
use crate::moved_nodes::moved_node;
use fir_ast::LeafId;
use fir_base::{MemoryOut, Seq};
use fir_net::{Array, FlatNet, Leaf, Node, Read};
use std::alloc::Global;
use std::mem;

/// The net of what is kept.
pub fn kept_net(alloc: Global, net: FlatNet, kept: &Kept) -> Result<FlatNet, MemoryOut>
    ensures { IfOk result (λ other. other ≡ kept_net kept.now net) }
{
    let mut net = net;
    let leaves = mem::replace(&mut net.leaves, Seq::from_vec(Vec::new(alloc)));
    let nodes = mem::replace(&mut net.nodes, Seq::from_vec(Vec::new(alloc)));
    let arrays = mem::replace(&mut net.arrays, Seq::from_vec(Vec::new(alloc)));
    let state = moved_state(alloc, net.state.as_slice(), kept)?;
    net.state = Seq::from_vec(state);
    net.leaves = Seq::from_vec(kept_leaves(alloc, leaves.into_vec(), kept)?);
    net.nodes = Seq::from_vec(kept_nodes(alloc, nodes.into_vec(), kept)?);
    net.arrays = Seq::from_vec(moved_arrays(alloc, arrays.into_vec(), kept)?);
    Ok(net)
}

fn kept_leaves(alloc: Global, leaves: Vec<Leaf>, kept: &Kept) -> Result<Vec<Leaf>, MemoryOut>
    ensures { IfOk result (λ v. v.items ≡ map (moved_leaf kept.now) (kept_of kept.now.leaves leaves.items)) }
{
    let mut moved = Vec::new(alloc);
    for (leaf, mark) in leaves.into_iter().zip(kept.leaf_marks()) {
        if *mark {
            moved.push(moved_leaf(leaf, kept))?;
        }
    }
    Ok(moved)
}

fn kept_nodes(alloc: Global, nodes: Vec<Node>, kept: &Kept) -> Result<Vec<Node>, MemoryOut>
    ensures { IfOk result (λ v. v.items ≡ map (moved_node kept.now) (kept_of kept.now.nodes nodes.items)) }
{
    let mut moved = Vec::new(alloc);
    for (node, mark) in nodes.into_iter().zip(kept.node_marks()) {
        if *mark {
            moved.push(moved_node(alloc, node, kept)?)?;
        }
    }
    Ok(moved)
}

fn moved_state(alloc: Global, state: &[LeafId], kept: &Kept) -> Result<Vec<LeafId>, MemoryOut>
    ensures { IfOk result (λ v. v.items ≡ map (moved_leaf_number kept.now) state.now) }
{
    let mut moved = Vec::with_capacity(alloc, state.len())?;
    for leaf in state {
        moved.push(kept.leaf(*leaf))?;
    }
    Ok(moved)
}

fn moved_arrays(alloc: Global, arrays: Vec<Array>, kept: &Kept) -> Result<Vec<Array>, MemoryOut>
    ensures { IfOk result (λ v. v.items ≡ map (moved_array kept.now) arrays.items) }
{
    let mut moved = Vec::with_capacity(alloc, arrays.len())?;
    for array in arrays {
        moved.push(moved_array(alloc, array, kept)?)?;
    }
    Ok(moved)
}

/// The order of what is kept.
pub fn kept_order(alloc: Global, order: &[Read], kept: &Kept) -> Result<Vec<Read>, MemoryOut>
    ensures { IfOk result (λ v. v.items ≡ kept_order kept.now order.now) }
{
    let mut moved = Vec::new(alloc);
    for read in order {
        if kept.has(*read) {
            moved.push(kept.read(*read))?;
        }
    }
    Ok(moved)
}

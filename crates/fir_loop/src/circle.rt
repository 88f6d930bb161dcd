//! Circles of leaves and nodes, and the closed walks of leaves that they are.

ghost use Rattle.std.specs.Prelude.{◌≡◌, ◌<◌, IfOk, Some, length, map, slice_get};
ghost use Rattle.fir_net.specs.working.IsNet.{IsNet};
ghost use Rattle.fir_loop.specs.working.IsLoop.{ShowsLoop, path_of};
ghost use Rattle.fir_loop.specs.working.IsCircle.{IsCircle, leaves_in, AreLeaves};

use fir_ast::{FirFault, LeafId};
use fir_base::{MemoryOut, Name, Seq};
use fir_net::{FlatNet, Leaf, Read};
use std::alloc::Global;

/// E28 at the first leaf of the circle, with the paths of its leaves, the first again at the end.
pub fn loop_fault(alloc: Global, net: &FlatNet, circle: &[Read]) -> Result<FirFault, MemoryOut>
    requires whole { IsNet net.now }
    requires circle { IsCircle net.now circle.now }
    ensures { IfOk result (ShowsLoop net.now) }
{
    let mut walk = leaves_of(alloc, circle)?;
    let first = walk[0];
    walk.push(first)?;
    let names = paths_of(alloc, net, walk.as_slice())?;
    Ok(FirFault::Loop(leaf_of(net, first).place, names))
}

/// The leaves among them.
fn leaves_of(alloc: Global, circle: &[Read]) -> Result<Vec<LeafId>, MemoryOut>
    ensures { IfOk result (λ v. v.items ≡ leaves_in circle.now) }
{
    let mut found = Vec::new(alloc);
    for read in circle {
        if let Read::Leaf(leaf) = read {
            found.push(*leaf)?;
        }
    }
    Ok(found)
}

/// The paths of the leaves.
pub fn paths_of(alloc: Global, net: &FlatNet, walk: &[LeafId]) -> Result<Seq<Name>, MemoryOut>
    requires { AreLeaves net.now walk.now }
    ensures { IfOk result (λ names. names ≡ map (path_of net.now) walk.now) }
{
    let mut names = Vec::new(alloc);
    for leaf in walk {
        names.push(leaf_of(net, *leaf).path.copy(alloc)?)?;
    }
    Ok(Seq::from_vec(names))
}

/// The leaf of that number.
pub fn leaf_of(net: &FlatNet, leaf: LeafId) -> &Leaf
    requires { leaf < length net.now.leaves }
    ensures { slice_get net.now.leaves leaf ≡ Some result.now }
{
    &net.leaves.as_slice()[leaf.number()]
}

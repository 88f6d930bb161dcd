//! The leaves of one declaration.

ghost use Rattle.std.specs.Prelude.{OnOk};
ghost use Rattle.fir_leaf_table.specs.working.PushedLeaves.{PushesLeaves};

use crate::declared::declared_leaves;
use crate::frame::Frame;
use crate::giver::{Giver, role_given};
use crate::places::{Places, place_given};
use crate::walk::Walk;
use fir_base::MemoryOut;
use fir_leaf_circuit::Leaf;
use std::alloc::Global;

/// The leaves of the declaration that comes, inside so many whens, are put behind those that are there, and it
/// is passed.
pub fn push_leaves(
    alloc: Global,
    frame: &Frame,
    depth: usize,
    places: &Places,
    giver: &Giver,
    walk: &mut Walk,
) -> Result<(), MemoryOut>
    ensures { OnOk result (PushesLeaves frame.now depth places.now giver.now walk.old walk.new) }
{
    let leaves = declared_leaves(alloc, frame, walk.declared)?;
    for (k, leaf) in leaves.iter().enumerate() {
        walk.leaves.push(Leaf {
            place: place_given(places, k, leaf.flip),
            declaration: walk.declared,
            holds: leaf.holds,
            depth,
            role: role_given(giver, k, leaf.flip, walk.no_node),
        })?;
    }
    walk.declared = walk.declared.checked_add(1).ok_or(MemoryOut)?;
    Ok(())
}

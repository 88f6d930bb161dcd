//! The leaves of what a module declares.

ghost use Rattle.std.specs.Prelude.{◌≡◌, IfOk, None, slice_get, unwrap_or};
ghost use Rattle.fir_ast.specs.Circuits.{CircuitTree};
ghost use Rattle.fir_ast.specs.Statements.{PlacedName};
ghost use Rattle.fir_meaning.specs.Components.{Component};
ghost use Rattle.fir_meaning.specs.Visibility.{Before};
ghost use Rattle.fir_meaning.specs.ModuleScenes.{Scene, held_by_declared, type_of_declared};
ghost use Rattle.fir_leaf_table.specs.working.Frames.{Frames, IsDeclaredAt};
ghost use Rattle.fir_leaf_table.specs.working.TypedLeaves.{AreLeavesOf};

use crate::frame::Frame;
use crate::type_leaves::{TypeLeaf, type_leaves};
use fir_base::MemoryOut;
use fir_types::Found;
use std::alloc::Global;

/// The leaves of the declaration before which so many stand, in the order of its type.
pub fn declared_leaves(
    alloc: Global,
    frame: &Frame,
    position: usize,
) -> Result<Vec<TypeLeaf>, MemoryOut>
    ensures { IfOk result (λ leaves. (c : CircuitTree) (s : Scene) (before : Before) (n : PlacedName) (component : Component) → Frames frame.now c s → IsDeclaredAt s before n component position → AreLeavesOf leaves.items (type_of_declared s (record { named = n; component = component; before = before })) (held_by_declared s (record { named = n; component = component; before = before }))) }
{
    let Some(found) = found_at(frame.declared, position) else {
        return Ok(Vec::new(alloc));
    };
    let Some(first) = frame.first_leaves.get(position) else {
        return Ok(Vec::new(alloc));
    };
    let first = first.number();
    // At 2^64 - 1 the numbers of leaves stand still.
    if first == usize::MAX {
        return Err(MemoryOut);
    }
    type_leaves(alloc, frame.fitted, &frame.findings.table, found, first)
}

/// What is found at a position.
fn found_at(declared: &[Option<Found>], position: usize) -> Option<Found>
    ensures { result ≡ unwrap_or (slice_get declared.now position) None }
{
    match declared.get(position) {
        Some(found) => *found,
        None => None,
    }
}

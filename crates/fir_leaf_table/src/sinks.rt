//! Which leaves of a module statements may drive (FIRRTL spec, "Flow", "Connects").

ghost use Rattle.std.specs.Prelude.{◌≡◌, ◌++◌, IfOk, List, OnOk, Some, map, slice_get};
ghost use Rattle.fir_ast.specs.Circuits.{CircuitTree, ModuleTree};
ghost use Rattle.fir_meaning.specs.Components as meant;
ghost use Rattle.fir_meaning.specs.ComponentTypes.{typed_scope};
ghost use Rattle.fir_meaning.specs.Flows.{flow_of};
ghost use Rattle.fir_meaning.specs.TypeLeaves.{TypeLeaf as LeafMeant};
ghost use Rattle.fir_meaning.specs.Visibility.{declarations};
ghost use Rattle.fir_type_table.specs.working.Tables.{types_of};
ghost use Rattle.fir_types.specs.working.Seen.{flow_seen, seen};
ghost use Rattle.fir_types.specs.working.Walked.{IsOfModule};
ghost use Rattle.fir_meaning.specs.FoundTypes.{leaves_of_data};
ghost use Rattle.fir_meaning.specs.ModuleScenes.{Scene};
ghost use Rattle.fir_leaf_table.specs.working.DrivenLeaves.{driven_in, may_be_driven};
ghost use Rattle.fir_leaf_table.specs.working.Frames.{Frames};

use crate::frame::Frame;
use crate::type_leaves::{TypeLeaf, type_leaves};
use fir_base::MemoryOut;
use fir_names::Names;
use fir_types::{Flow, Found};
use std::alloc::Global;

/// Of each leaf of the module, by its number, whether statements may drive it.
pub fn driven_leaves(alloc: Global, frame: &Frame) -> Result<Vec<bool>, MemoryOut>
    ensures { IfOk result (λ driven. (c : CircuitTree) (s : Scene) → Frames frame.now c s → driven.items ≡ driven_in (typed_scope c.modules (declarations s.own.inside))) }
{
    let mut driven = Vec::new(alloc);
    for (position, found) in frame.declared.iter().enumerate() {
        let flow = flow_at(frame.names, position);
        push_driven(alloc, frame, flow, *found, &mut driven)?;
    }
    Ok(driven)
}

/// The flow of the declaration before which so many stand.
fn flow_at(names: &Names, position: usize) -> Flow
    ensures { (modules : List ModuleTree) (whole : meant.Declarations) (d : meant.Declaration) → IsOfModule modules names.now whole → slice_get whole position ≡ Some d → flow_seen result ≡ flow_of d.component }
{
    match names.at(position) {
        Some(declaration) => Flow::of(declaration.component),
        None => Flow::Source,
    }
}

/// Of each leaf of what is declared with this flow, whether statements may drive it. What has no type has
/// no leaf.
fn push_driven(
    alloc: Global,
    frame: &Frame,
    flow: Flow,
    found: Option<Found>,
    driven: &mut Vec<bool>,
) -> Result<(), MemoryOut>
    ensures { OnOk result (driven.new.items ≡ driven.old.items ++ map (λ (l : LeafMeant). may_be_driven (flow_seen flow) l.flip) (leaves_of_data (seen (types_of frame.now.findings.now.table) found))) }
{
    let Some(found) = found else {
        return Ok(());
    };
    let leaves = type_leaves(alloc, frame.fitted, &frame.findings.table, found, 0)?;
    push_each(flow, leaves.as_slice(), driven)
}

/// Of each leaf of what has this flow, whether statements may drive it.
fn push_each(flow: Flow, leaves: &[TypeLeaf], driven: &mut Vec<bool>) -> Result<(), MemoryOut>
    ensures { OnOk result (driven.new.items ≡ driven.old.items ++ map (λ (l : TypeLeaf). may_be_driven (flow_seen flow) l.flip) leaves.now) }
{
    for leaf in leaves {
        driven.push(may_be_driven(flow, leaf.flip))?;
    }
    Ok(())
}

/// Whether statements may drive a leaf, flipped or not, of what has this flow.
fn may_be_driven(flow: Flow, flip: bool) -> bool
    ensures { result ≡ may_be_driven (flow_seen flow) flip }
{
    flow.under(flip) != Flow::Source
}

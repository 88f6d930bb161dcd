//! The leaves of a register (FIRRTL spec, "Registers").

ghost use Rattle.std.specs.Prelude.{◌≡◌, ℕ, List, Option, option_map};
ghost use Rattle.fir_ast.specs.declared.place.Place.{Place};
ghost use Rattle.fir_ast.specs.Circuits.{CircuitTree};
ghost use Rattle.fir_ast.specs.Expressions.{Expression};
ghost use Rattle.fir_ast.specs.Statements as tree;
ghost use Rattle.fir_ast.specs.Statements.{Reset};
ghost use Rattle.fir_ast.specs.Types.{DataType};
ghost use Rattle.fir_ast.specs.working.Views.{named_of};
ghost use Rattle.fir_meaning.specs.Visibility.{Before, declarations};
ghost use Rattle.fir_types.specs.working.Walked.{Begins};
ghost use Rattle.fir_ground.specs.working.DeclarationDrivers.{reset_seen, reset_terms};
ghost use Rattle.fir_leaf.specs.declared.node.Node.{Node};
ghost use Rattle.fir_meaning.specs.ModuleScenes.{Scene, scope_before};
ghost use Rattle.fir_meaning.specs.working.LeafedModules.{leaf_reset};
ghost use Rattle.fir_leaf_table.specs.working.Frames.{Frames};
ghost use Rattle.fir_leaf_table.specs.working.Givers.{reset_given};
ghost use Rattle.fir_leaf_table.specs.working.Walks.{PassesStatement};

use crate::frame::Frame;
use crate::giver::{Giver, ResetGiver};
use crate::places::Places;
use crate::push::push_leaves;
use crate::resets::is_async;
use crate::walk::Walk;
use fir_ast::Ident;
use fir_base::MemoryOut;
use fir_ground::{Driver, ResetDriver};
use std::alloc::Global;

/// A register of that name.
pub fn in_register(
    alloc: Global,
    frame: &Frame,
    depth: usize,
    ident: &Ident,
    walk: &mut Walk,
) -> Result<(), MemoryOut>
    ensures { (place begins : Place) (t : DataType) (clock : Expression) (reset : Option Reset) → PassesStatement frame.now (tree.register place (named_of ident.now) begins t clock reset) depth walk.old walk.new result }
{
    let Some(driver) = walk.next_driver() else {
        return Ok(());
    };
    let Driver::Register(register) = driver else {
        return Ok(());
    };
    let reset = reset_giver(frame, &register.reset);
    push_leaves(
        alloc,
        frame,
        depth,
        &Places::Own(ident.place),
        &Giver::Register(register.clock, reset),
        walk,
    )
}

/// What a reset gives the leaves of its register.
fn reset_giver<'a>(frame: &Frame, reset: &'a Option<ResetDriver>) -> Option<ResetGiver<'a>>
    ensures { (c : CircuitTree) (s : Scene) (before : Before) (nodes : List Node) (meant : Option Reset) → Frames frame.now c s → Begins before.declared (declarations s.own.inside) → option_map (reset_seen nodes) reset.now ≡ option_map (reset_terms (scope_before s before)) meant → (k : ℕ) → option_map (reset_given nodes k) result ≡ option_map (leaf_reset s.is_async (scope_before s before) k) meant }
{
    let Some(reset) = reset else {
        return None;
    };
    Some(ResetGiver {
        is_async: is_async(frame, reset.kind),
        condition: reset.condition,
        init: &reset.init,
    })
}

//! E18: the fault that a walk from a UInt to an AsyncReset shows (FIRRTL spec, "Reset Inference").

ghost use Rattle.std.specs.Prelude.{◌≡◌, ◌≤◌, IfOk, List, length, map};
ghost use Rattle.fir_ast.specs.working.CodeFaults.{reset_step_text};
ghost use Rattle.fir_ast.specs.Faults.{Fault};
ghost use Rattle.fir_ast.specs.working.CodeFaults.{fault_of};
ghost use Rattle.fir_infer_resets.specs.working.FoundKinds.{TellsWalk};
ghost use Rattle.fir_infer_resets.specs.working.Holding.{AreEnds, item_of};
ghost use Rattle.fir_infer_resets.specs.working.ResetGraphs.{AllBelow};
ghost use Rattle.fir_meaning.specs.ResetItems.{End as Meant};
ghost use Rattle.fir_meaning.specs.ResetWalks.{reset_item_text};
ghost use Rattle.fir_infer_resets.specs.working.StepTexts.{text_at};

use crate::item::{End, Item};
use crate::path_text::path_name;
use fir_ast::{FirFault, ResetStep};
use fir_base::{MemoryOut, Seq};
use std::alloc::Global;

/// The fault of a walk by the numbers of its ends. It stands where the second of them does, the first Reset.
pub fn told(alloc: Global, ends: &[End], walk: &[usize]) -> Result<FirFault, MemoryOut>
    requires long { 2 ≤ length walk.now }
    requires within { AllBelow (length ends.now) walk.now }
    ensures { (es : List Meant) (f : Fault) → AreEnds ends.now es → TellsWalk es walk.now f → IfOk result (λ g. fault_of g ≡ f) }
{
    let first = walk[1];
    let place = ends[first].place;
    let steps = steps_of(alloc, ends, walk)?;
    Ok(FirFault::Resets(place, Seq::from_vec(steps)))
}

/// The steps of a walk.
fn steps_of(alloc: Global, ends: &[End], walk: &[usize]) -> Result<Vec<ResetStep>, MemoryOut>
    requires { AllBelow (length ends.now) walk.now }
    ensures { IfOk result (λ steps. map reset_step_text steps.items ≡ map (text_at ends.now) walk.now) }
{
    let mut steps = Vec::new(alloc);
    for number in walk {
        steps.push(step_of(alloc, &ends[*number])?)?;
    }
    Ok(steps)
}

/// The step that an end is.
fn step_of(alloc: Global, end: &End) -> Result<ResetStep, MemoryOut>
    ensures { IfOk result (λ step. reset_step_text step ≡ reset_item_text (item_of end.now.item)) }
{
    match &end.item {
        Item::Leaf(_, path) => Ok(ResetStep::Leaf(path_name(alloc, path)?)),
        Item::Value(place) => Ok(ResetStep::At(*place)),
    }
}

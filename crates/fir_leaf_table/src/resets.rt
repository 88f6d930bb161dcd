//! Whether the reset of a register is asynchronous (FIRRTL spec, "Reset Inference").

ghost use Rattle.std.specs.Prelude.{◌≡◌, ◌↔◌, ℕ, ◌+◌, ◌^◌, ◌<◌, IsTrue, Some, length};
ghost use Rattle.fir_ast.specs.Circuits.{CircuitTree};
ghost use Rattle.fir_ast.specs.Expressions.{Expression};
ghost use Rattle.fir_meaning.specs.ResetItems.{End};
ghost use Rattle.fir_meaning.specs.ResetWalks.{IsAsynchronous, IsLeafOf, IsReset};
ghost use Rattle.fir_meaning.specs.Visibility.{Before, declarations};
ghost use Rattle.fir_type_table.specs.working.Saturated.{saturated};
ghost use Rattle.fir_types.specs.working.TypedModules.{leaf_declared};
ghost use Rattle.fir_types.specs.working.Walked.{Begins};
ghost use Rattle.fir_reset.specs.working.Inferred.{leaf_number};
ghost use Rattle.fir_ground.specs.working.ResetKinds.{kind_of_reset, kind_seen};
ghost use Rattle.fir_meaning.specs.ModuleScenes.{Scene, scope_before};
ghost use Rattle.fir_meaning.specs.AsyncResets.{is_async_reset};
ghost use Rattle.fir_leaf_table.specs.working.Frames.{Frames};

use crate::frame::Frame;
use fir_ast::LeafId;
use fir_ground::ResetKind;
use fir_reset::ResetMap;

/// Whether a reset of this kind is asynchronous: by its type, or as it is inferred of the Reset.
pub fn is_async(frame: &Frame, kind: ResetKind) -> bool
    ensures { (c : CircuitTree) (s : Scene) (before : Before) (e : Expression) → Frames frame.now c s → Begins before.declared (declarations s.own.inside) → kind_seen kind ≡ kind_of_reset (scope_before s before) e → result ≡ is_async_reset s.is_async (scope_before s before) e }
{
    match kind {
        ResetKind::Synchronous => false,
        ResetKind::Asynchronous => true,
        ResetKind::Inferred(declaration, shared_offset) => {
            is_inferred(frame, declaration, shared_offset)
        }
    }
}

/// Whether the Reset is inferred to be asynchronous that stands so many leaves behind the first of what is
/// declared behind so many declarations of the module.
fn is_inferred(frame: &Frame, declaration: usize, shared_offset: u64) -> bool
    ensures { (c : CircuitTree) (s : Scene) (e : End) (first offset : ℕ) → Frames frame.now c s → IsLeafOf c e → IsReset e → leaf_declared c frame.now.number declaration ≡ Some first → shared_offset ≡ saturated offset → leaf_number c e.item ≡ Some (first + offset) → IsTrue result ↔ IsAsynchronous c e }
{
    let resets = frame.fitted.resets();
    is_short(resets);
    let Some(first) = frame.first_leaves.get(declaration) else {
        return false;
    };
    match first.number().checked_add(shared_offset as usize) {
        Some(number) => resets.is_asynchronous(LeafId::new(number)),
        None => false,
    }
}

/// A map has room for fewer leaves than there are numbers.
fn is_short(resets: &ResetMap)
    ensures { length resets.now < 2 ^ 63 }
{}

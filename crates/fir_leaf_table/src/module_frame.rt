//! The frame of a module.

ghost use Rattle.std.specs.Prelude.{◌≡◌, ◌<◌, length};
ghost use Rattle.fir_ast.specs.working.Views.{circuit_of};
ghost use Rattle.fir_meaning.specs.working.NameGroups.{HasNames};
ghost use Rattle.fir_meaning.specs.ModuleScenes.{Scene};
ghost use Rattle.fir_leaf_table.specs.working.Frames.{Frames};
ghost use Rattle.fir_leaf_table.specs.working.ModulePlaces.{ArePlacesOf};
ghost use Rattle.fir_meaning.specs.Scenes.{IsSceneOf};

use crate::frame::Frame;
use fir_ast::Place;
use fir_width::Fitted;

/// What stands round the declarations of the module of a number.
pub fn frame_of<'a>(fitted: &'a Fitted, port_places: &'a [Vec<Place>], number: usize) -> Frame<'a>
    requires names { HasNames (circuit_of fitted.now) }
    requires places { ArePlacesOf (circuit_of fitted.now).modules port_places.now }
    requires there { number < length (circuit_of fitted.now).modules }
    ensures frames { (s : Scene) → IsSceneOf (circuit_of fitted.now) number s → Frames result (circuit_of fitted.now) s }
    ensures notes { number < length result.findings.now.notes.items }
    ensures number { result.number ≡ number }
{
    let typed = fitted.typed();
    let findings = typed.findings();
    let Some(names) = typed.named().names(number) else {
        unreachable!()
    };
    Frame {
        fitted,
        findings,
        number,
        names,
        declared: findings.declared[number].as_slice(),
        first_leaves: findings.first_leaves[number].as_slice(),
        port_places,
    }
}

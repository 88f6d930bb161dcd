//! A law about the modules of a circuit that has its widths.

ghost use Rattle.fir_ast.specs.working.Views.{circuit_of};
ghost use Rattle.fir_meaning.specs.working.Scenes.{HasScenes};

use fir_width::Fitted;

/// Each module has a scene: widths, and which of its Resets are asynchronous. So what is said of every scene is
/// said of one.
pub fn has_scenes(fitted: &Fitted)
    ensures { HasScenes (circuit_of fitted.now) }
{
    let typed = fitted.typed();
    let _circuit = typed.named().circuit();
    let _resets = fitted.resets();
}

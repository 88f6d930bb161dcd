//! A law about the definitions, the contract of a function that does nothing.

ghost use Rattle.std.specs.Prelude.{ℕ, List};
ghost use Rattle.trace_lines.specs.Saying.{SaysBadly, SaysFront};
ghost use Rattle.trace_text.specs.TraceSpells.{TraceSpells};
ghost use Rattle.fir_emitted.specs.working.Laws.{EmittedHasShape, OfEmitted};

use ver_ast::runs_at_most_once;

/// The traces of an emitted tree have the shape of the circuit's. What the tree prints over a whole trace, over
/// the lines at the front of one, or before its first bad line, the circuit prints.
pub fn emitted_prints_the_same()
    ensures shaped { EmittedHasShape }
    ensures whole { (trace : List ℕ) → OfEmitted (TraceSpells trace) }
    ensures front { (trace : List ℕ) → OfEmitted (SaysFront trace) }
    ensures bad { (trace line : List ℕ) → OfEmitted (SaysBadly trace line) }
{
    runs_at_most_once();
}

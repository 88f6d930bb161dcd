//! Laws about the definitions, each the contract of a function that does nothing.

ghost use Rattle.trace_lines.specs.working.Growing.{RunsGrow, LastIsLeft, LinesGrow};

use trace_text::Circuits;

/// What is allowed from the state that a run leaves makes it one tick longer.
pub fn runs_grow<C: Circuits>()
    ensures { (c : C.circuit) → RunsGrow (C.allows c) }
{}

/// The last state of a run is the one that it leaves, and the lines of a longer run go on with that of its last tick.
pub fn lines_grow()
    ensures last { LastIsLeft }
    ensures lines { LinesGrow }
{}

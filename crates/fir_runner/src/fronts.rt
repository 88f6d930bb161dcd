//! What is printed of the first ticks of a trace.

ghost use Rattle.fir_runner.specs.working.Laws.{FrontsBegin};

use trace_text::Circuits;
use trace_text::laws::front_lines_begin;

/// The sources of circuits, which allow what they mean.
pub struct SourceCircuits {}

impl Circuits for SourceCircuits {
    ghost use Rattle.fir_meaning.specs.SourceAllows.{Allows};
    ghost use Rattle.fir_meaning.specs.SourceDesigns.{SourceDesign};

    ghost circuit = { SourceDesign };

    ghost allows = { Allows };
}

/// The lines of the first ticks of a trace begin those of all its ticks, up to its end or to its first bad line.
pub fn fronts_begin()
    ensures { FrontsBegin }
{
    front_lines_begin::<SourceCircuits>();
}

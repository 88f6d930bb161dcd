//! Laws about the definitions, each the contract of a function that does nothing.

ghost use Rattle.ver_runner.specs.working.Laws.{CountsEndLines, LackedDoesNotRun, LacksAllowNothing, VFrontsBegin};

use trace_text::Circuits;
use trace_text::laws::trace_is_spelled_or_bad;

/// Trees, which allow what they mean.
pub struct Trees {}

impl Circuits for Trees {
    ghost use Rattle.ver_ast.specs.Allows.{VAllows};
    ghost use Rattle.ver_ast.specs.declared.tree.Verilog.{Verilog};

    ghost circuit = { Verilog };

    ghost allows = { VAllows };
}

/// At a tick at which an item lacks a value a tree allows nothing.
pub fn lacks_allow_nothing()
    ensures { LacksAllowNothing }
{}

/// No run goes through all that a trace says where an item lacks a value at one of its ticks.
pub fn lacked_does_not_run()
    ensures { LackedDoesNotRun }
{}

/// The lines of the first ticks of a trace begin those of the whole trace, up to its end, to its first bad line, or to a
/// tick at which an item lacks a value.
pub fn fronts_begin()
    ensures { VFrontsBegin }
{
    trace_is_spelled_or_bad();
}

/// A line with a number of rounds is the line without it, but for its end.
pub fn counts_end_lines()
    ensures { CountsEndLines }
{}

//! Laws about the definitions, each the contract of a function that does nothing.

ghost use Rattle.trace_text.specs.working.Steps.{TraceReadsInSteps};
ghost use Rattle.trace_text.specs.working.WrittenWords.{WordReadsBack};
ghost use Rattle.trace_text.specs.working.CutLines.{FrontsAreCutLines};
ghost use Rattle.trace_text.specs.working.Fronts.{FrontSpellsFirst, OneResultOneRun, FirstLinesBegin, FrontLinesBegin};
ghost use Rattle.trace_text.specs.working.Laws.{LineIsSpelledOrBad, TraceIsSpelledOrBad, SpelledIsNotBad, SpellsOneTrace, ShowsOneBadLine};

use crate::circuits::Circuits;

/// A line is spelled in its place exactly where nothing is wrong with it.
pub fn line_is_spelled_or_bad()
    ensures { LineIsSpelledOrBad }
{}

/// All bytes spell a trace or have a first bad line.
pub fn trace_is_spelled_or_bad()
    ensures { TraceIsSpelledOrBad }
{}

/// No bytes do both.
pub fn spelled_is_not_bad()
    ensures { SpelledIsNotBad }
{}

/// Bytes spell one initial state and one list of ticks at most.
pub fn spells_one_trace()
    ensures { SpellsOneTrace }
{}

/// Bytes have one first bad line at most.
pub fn shows_one_bad_line()
    ensures { ShowsOneBadLine }
{}

/// What the readers give step by step is what the whole trace spells, or its first bad line.
pub fn trace_reads_in_steps()
    ensures { TraceReadsInSteps }
{}

/// The word that is written for a value reads back to it: in lower-case digits, no more and no fewer than show
/// every value of its width.
pub fn word_reads_back()
    ensures { WordReadsBack }
{}

/// Lines at the front of a trace spell the first of its ticks, and its initial state where they spell a tick.
pub fn front_spells_first()
    ensures { FrontSpellsFirst }
{}

/// Where a state and a tick allow one result at most, one run at most goes from a state through ticks.
pub fn one_result_one_run<C: Circuits>()
    ensures { (c : C.circuit) → OneResultOneRun (C.allows c) }
{}

/// The lines of the one run through the first ticks begin those of each run through all of them.
pub fn first_lines_begin<C: Circuits>()
    ensures { (c : C.circuit) → FirstLinesBegin (C.allows c) }
{}

/// The lines of the one run through what the front of a trace spells begin those of each run through all that the
/// trace says, up to its end or its first bad line.
pub fn front_lines_begin<C: Circuits>()
    ensures { (c : C.circuit) → FrontLinesBegin (C.allows c) }
{}

/// A front of the lines of a run is whole lines, and behind them a front of the next line.
pub fn fronts_are_cut_lines()
    ensures { FrontsAreCutLines }
{}

//! Laws about the definitions, each the contract of a function that does nothing.

ghost use Rattle.ver_order.specs.working.Laws.{RoundsEndAtRest, StepsKeepRest, StepsKeepSources, StepsFit, ShownIsRest, ShownIsSettled, FewRoundsSettle, EdgesLeaveNext, HasSomeEdge, NextHasShape};

/// From any values of the processes' targets, as many rounds as there are processes end at rest, whatever
/// stands between and within them.
pub fn rounds_end_at_rest()
    ensures { RoundsEndAtRest }
{}

/// At rest no step changes a value.
pub fn steps_keep_rest()
    ensures { StepsKeepRest }
{}

/// Steps leave the inputs, the clocks and the registers that no process shows as they are, and each net with a
/// value of its width.
pub fn steps_keep_sources()
    ensures sources { StepsKeepSources }
    ensures fit { StepsFit }
{}

/// Every process shows the value of its right side exactly where all is at rest, and has a value to show exactly
/// where all is settled.
pub fn shown_is_rest()
    ensures rest { ShownIsRest }
    ensures settled { ShownIsSettled }
{}

/// Where some values are settled, a round that is taken again and again settles. The least number of turns
/// that does is at most the number of processes, or 1.
pub fn few_rounds_settle()
    ensures { FewRoundsSettle }
{}

/// Every order of the events of an edge leaves one state, which is the next one where there is one; and there
/// is such an order.
pub fn edges_leave_next()
    ensures next { EdgesLeaveNext }
    ensures some { HasSomeEdge }
{}

/// The next state has the tree's shape.
pub fn next_has_shape()
    ensures { NextHasShape }
{}

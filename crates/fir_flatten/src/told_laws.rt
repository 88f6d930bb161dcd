//! What is told of the clocks of a design by the copies of its modules is told of its source.

ghost use Rattle.fir_flatten.specs.working.ClockTold.{FirstIsTold};

/// In every sound design of a circuit that shows no fault of names or types, the first fault of clocks (E25) by the
/// leaves of the copies of its modules is told of the design's source, and where those show none, the source shows none
/// (FIRRTL spec, "Clock Type", "Instances").
pub fn first_is_told()
    ensures { FirstIsTold }
{}

//! Laws about the faults of leaf circuits, each the contract of a function that does nothing.

ghost use Rattle.fir_leaf.specs.working.FaultLaws.{ChainIsWalk, ClosedWalkShowsLoop, FaultlessHasStep, RingShowsLoop};

/// A chain of clocks is a walk of dependence.
pub fn chain_is_walk()
    ensures { ChainIsWalk }
{}

/// Where a walk of dependence comes back, some closed walk repeats no leaf, and E28 stands (FIRRTL spec,
/// "Connects").
pub fn closed_walk_shows_loop()
    ensures { ClosedWalkShowsLoop }
{}

/// So does it where a chain of clocks comes back.
pub fn ring_shows_loop()
    ensures { RingShowsLoop }
{}

/// Where no E25 stands, exactly one term gives the clock of a clock leaf that is given one under every
/// choice, and it names one leaf or is an invalid (FIRRTL spec, "Clock Type").
pub fn faultless_has_step()
    ensures { FaultlessHasStep }
{}

//! Laws about leaf circuits over ticks, and about where their clocks come from, each the contract of a
//! function that does nothing.

ghost use Rattle.fir_leaf.specs.working.RunLaws.{FormedKeepsShape, HasOneRoot, OneHasRun, OneRootOf, RingNeverEnds, RootBefore, RootIsClock};

/// Where what statements and inits give are values of their widths, the state after a tick has the shape of
/// the state before it (FIRRTL spec, "Registers", "Memories").
pub fn formed_keeps_shape()
    ensures { FormedKeepsShape }
{}

/// Where one choice of values is settled at every state and tick, and the state keeps its shape, there is
/// exactly one run of every length from each state of the shape.
pub fn one_has_run()
    ensures { OneHasRun }
{}

/// In all settled values a clock leaf has the clock of its root, whatever the state and the tick (FIRRTL
/// spec, "Clock Type").
pub fn root_is_clock()
    ensures { RootIsClock }
{}

/// A leaf has one root at most.
pub fn has_one_root()
    ensures { HasOneRoot }
{}

/// A chain of clocks that comes back never ends, which is one way to have no root.
pub fn ring_never_ends()
    ensures { RingNeverEnds }
{}

/// A leaf that is given the clock of another has the root of that one, or as that one none.
pub fn root_before()
    ensures { RootBefore }
{}

/// A leaf has one answer at most: a root, or none.
pub fn one_root_of()
    ensures { OneRootOf }
{}

//! A law about the definitions, the contract of a function that does nothing.

ghost use Rattle.fir_clock_root.specs.working.ClockRoots.{RootIsClock};

/// In all settled values of a net the root of a clock leaf is its clock.
pub fn root_is_clock()
    ensures { RootIsClock }
{}

//! Laws about lowered terms, each the contract of a function that does nothing.

ghost use Rattle.fir_connect.specs.working.LoweredLaws.{LoweredClocks, LoweredHasType, LoweredIsWorth, LoweredReads};

/// A lowered term has the value of the term (FIRRTL spec, "Expressions", "Sub-accesses").
pub fn lowered_is_worth()
    ensures { LoweredIsWorth }
{}

/// It has its type.
pub fn lowered_has_type()
    ensures { LoweredHasType }
{}

/// It gives the same clock.
pub fn lowered_clocks()
    ensures { LoweredClocks }
{}

/// It reads the same leaves.
pub fn lowered_reads()
    ensures { LoweredReads }
{}

//! Laws about what drives a leaf, each the contract of a function that does nothing.

ghost use Rattle.fir_connect.specs.working.DriverLaws.{DriverClocks, DriverIsWorth, DriverReads};

/// Where each leaf has a number of its width, the driver of a leaf has the value that the statements store there, or
/// what it starts with where they store nothing (FIRRTL spec, "Conditional Last Connect Semantics").
pub fn driver_is_worth()
    ensures { DriverIsWorth }
{}

/// The driver of a clock leaf gives the clock that they store.
pub fn driver_clocks()
    ensures { DriverClocks }
{}

/// The driver of a leaf that is no register reads what the statements read that are live for it.
pub fn driver_reads()
    ensures { DriverReads }
{}

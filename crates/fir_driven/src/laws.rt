//! Laws about leaves that are covered and about the told choice, each the contract of a function that does nothing.

ghost use Rattle.fir_driven.specs.working.ChoiceLaws.{CoveredIsDriven, MissedIsFirst};

/// No choice leaves a leaf undriven that is covered.
pub fn covered_is_driven()
    ensures { CoveredIsDriven }
{}

/// The told choice leaves a leaf that is not covered undriven, and no other that does comes before it.
pub fn missed_is_first()
    ensures { MissedIsFirst }
{}

//! Laws about costs, each the contract of a function that does nothing.

ghost use Rattle.fir_expand.specs.working.CostLaws.{HasOneCost};

/// A circuit whose names stand has one cost at most.
pub fn has_one_cost()
    ensures { HasOneCost }
{}

//! A law about the definitions, the contract of a function that does nothing.

ghost use Rattle.fir_loop.specs.working.Laws.{HeightsHaveNoLoop};

/// Where each leaf and each node stands higher than all that it hangs on, there is no closed walk.
pub fn heights_have_no_loop()
    ensures { HeightsHaveNoLoop }
{}

//! Circuits that are run.

ghost use Rattle.fir_base.specs.Ticks.{Allowance};

/// Circuits of some kind, and which outputs, clocks of outputs and next state each allows at a state and a tick.
pub trait Circuits {
    ghost circuit: { Type 0 };

    ghost allows: { circuit → Allowance };
}

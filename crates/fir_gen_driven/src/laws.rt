//! Laws about the circuit, each the contract of a function that does nothing.

ghost use Rattle.fir_gen_driven.specs.working.Laws.{GenHasSource, GenIsDriven};

/// Each leaf of the circuit `Gen` is driven, its clocks are one, its inits are constants, and no leaf depends on itself.
pub fn gen_is_driven()
    ensures { GenIsDriven }
{}

/// The circuit has one clock, the inputs `reset` and `x`, the output `y` and a word of 16 bits for each register, and
/// no other leaf and no memory.
pub fn gen_has_source()
    ensures { GenHasSource }
{}

//! A law about the definitions, the contract of a function that does nothing.

ghost use Rattle.fir_gen_checked.specs.working.Laws.{GenIsChecked};

/// No fault of names, types, resets, widths or cost stands in the circuit, wherever its parts stand.
pub fn gen_is_checked()
    ensures { GenIsChecked }
{}

//! Laws about the definitions, each the contract of a function that does nothing.

ghost use Rattle.fir_meaning.specs.working.NameLaws.{OneLookUp};

/// Where neither E08 nor E09 stands in a circuit, one look-up in all that a module declares finds what is
/// visible at each place where a name is used.
pub fn one_look_up()
    ensures { OneLookUp }
{}

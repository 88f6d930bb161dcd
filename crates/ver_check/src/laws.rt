//! Laws about the definitions of the faults of a tree, each the contract of a function that does nothing.

ghost use Rattle.ver_check.specs.working.Laws.{FaultlessIsValid, ValidIsShallow};

/// A tree in no operand of which more than 256 braces are open is valid exactly where it has no fault of V03, V04, V05 and
/// V08, and some order of its processes has each once, after all that it reads.
pub fn faultless_is_valid()
    ensures { FaultlessIsValid }
{}

/// A valid tree has no operand in which more than 256 braces are open.
pub fn valid_is_shallow()
    ensures { ValidIsShallow }
{}

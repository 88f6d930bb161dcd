//! Where the modules of a design stand in its circuit.

ghost use Rattle.fir_copies.specs.working.CopyLaws.{CopiesGiveAll, CopiesStand};

/// The leaves of each module of a design have their numbers in the design's circuit, from two numbers on, and hold
/// there what they hold in the module; each that is no source in the module is given its value there as the module
/// gives it; and its arrays have theirs from a number on (FIRRTL spec, "Instances", "Memories", "Last Connect
/// Semantics").
pub fn copies_stand()
    ensures { CopiesStand }
{}

/// Each leaf of the circuit is such a leaf of one of the modules, or an input of the main module.
pub fn copies_give_all()
    ensures { CopiesGiveAll }
{}

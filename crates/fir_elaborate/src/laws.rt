//! Laws about the definitions, each the contract of a function that does nothing.

ghost use Rattle.fir_elaborate.specs.working.CopyArrays.{ArraysAreOfCopies, ArraysAreOfModules};
ghost use Rattle.fir_elaborate.specs.working.Laws.{ModulesAreOrdered};

/// The leaves, the arrays and the instances of each module of a circuit without a fault of names or types stand in the
/// order of its declarations (FIRRTL spec, "Modules", "Instances", "Memories").
pub fn modules_are_ordered()
    ensures { ModulesAreOrdered }
{}

/// The arrays of a design's circuit are those of the copies of its modules, one copy behind the other (FIRRTL spec,
/// "Memories", "Instances").
pub fn arrays_are_of_copies()
    ensures { ArraysAreOfCopies }
{}

/// And so they are those of the copies that the walk through the design finds, with their paths as they are printed.
pub fn arrays_are_of_modules()
    ensures { ArraysAreOfModules }
{}

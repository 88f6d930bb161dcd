//! Laws about leaf circuits, each the contract of a function that does nothing.

ghost use Rattle.fir_leaf.specs.working.LeafLaws.{SameModuleStores, SameStores, SameValues};

/// Whatever the leaves hold, the terms of an expression by numbers have the values that the tree's meaning
/// gives by paths, where no field of the expression's type is declared twice (FIRRTL spec, "Expressions").
pub fn values_by_number_are_those_by_path()
    ensures { SameValues }
{}

/// For all values, legal statements over leaves store at every leaf's number what the tree's statements
/// store at its path, and nothing where these store nothing (FIRRTL spec, "Connects", "Partial Connects",
/// "Invalidates", "Conditional Last Connect Semantics").
pub fn stores_by_number_are_those_by_path()
    ensures { SameStores }
{}

/// So does each module of a circuit that shows no fault of names or types.
pub fn module_stores_are_those_by_path()
    ensures { SameModuleStores }
{}

//! Laws about the table of a module's leaves, each the contract of a function that does nothing.

ghost use Rattle.fir_leaf.specs.working.TableLaws.{LeavesAreDeclared, LeavesFollowTypes, NumbersAreLeaves, TableHasFacts, TableStores};

/// The leaves of a module are those of all that it declares, in the order of the text, each with its path
/// (FIRRTL spec, "Ports", "Wires", "Registers", "Nodes", "Instances", "Memories").
pub fn leaves_are_declared()
    ensures { LeavesAreDeclared }
{}

/// Each number that stands in the statements of a module's view is that of one of its leaves, where its
/// circuit shows no fault of names or types.
pub fn numbers_are_leaves()
    ensures { NumbersAreLeaves }
{}

/// There these statements store at each leaf, with the types and depths of the table, what the statements
/// of the module store at its path (FIRRTL spec, "Connects", "Conditional Last Connect Semantics").
pub fn table_stores()
    ensures { TableStores }
{}

/// There the table gives such types and depths by path: each leaf has a path of its own.
pub fn table_has_facts()
    ensures { TableHasFacts }
{}

/// There each leaf is one of its declaration's type, as many whens stand round it as round the declaration,
/// and statements may drive it exactly where it is no source (FIRRTL spec, "Flow").
pub fn leaves_follow_types()
    ensures { LeavesFollowTypes }
{}

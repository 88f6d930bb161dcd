//! What the trees of designs mean.

ghost use Rattle.fir_design.specs.working.SameRoles.{ViewsHaveRoles};
ghost use Rattle.fir_design.specs.working.SourceLaws.{HasOneTree, ViewsClockAsTrees, ViewsStoreAsTrees};

/// A module of a circuit that shows no fault of names or types, and has a design, has exactly one tree of
/// designs (FIRRTL spec, "Instances").
pub fn has_one_tree()
    ensures { HasOneTree }
{}

/// There, for all values, the design of a module's leaf view stores at every path the number that the
/// statements of the tree store, and nothing where these store nothing (FIRRTL spec, "Connects", "Conditional Last
/// Connect Semantics", "Instances").
pub fn views_store_as_trees()
    ensures { ViewsStoreAsTrees }
{}

/// And the clock (FIRRTL spec, "Clock Type").
pub fn views_clock_as_trees()
    ensures { ViewsClockAsTrees }
{}

/// There the leaves and the arrays of a module's leaf view have the roles that their declarations give them,
/// by expressions and paths: inputs, statements, nodes, registers with their resets, and what memories read and
/// write (FIRRTL spec, "Registers", "Nodes", "Memories").
pub fn views_have_roles()
    ensures { ViewsHaveRoles }
{}

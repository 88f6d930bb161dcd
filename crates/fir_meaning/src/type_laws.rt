//! Laws about types, leaves and connects, each the contract of a function that does nothing.

ghost use Rattle.fir_meaning.specs.working.TypeLaws.{ConnectsLeafByLeaf, FaultlessIsWellTyped, LeavesHaveNumbers, PartialConnectsFit, PathsAreDistinct};

/// A connect of types that fit pairs all leaves of the one with all leaves of the other, in order and path
/// by path (FIRRTL spec, "Connects").
pub fn connects_leaf_by_leaf()
    ensures { ConnectsLeafByLeaf }
{}

/// A partial connect of types that may be joined so pairs leaves of both sides that fit and are oriented
/// alike (FIRRTL spec, "Partial Connects").
pub fn partial_connects_fit()
    ensures { PartialConnectsFit }
{}

/// Where no field of a bundle is declared twice, each path is that of one leaf.
pub fn paths_are_distinct()
    ensures { PathsAreDistinct }
{}

/// There the number of a leaf is the sum of offsets on its path: its place among the leaves.
pub fn leaves_have_numbers()
    ensures { LeavesHaveNumbers }
{}

/// Where no fault of names stands in a circuit, it shows no fault of types exactly where each of its forms
/// has a type and each connect a legal flow.
pub fn faultless_is_well_typed()
    ensures { FaultlessIsWellTyped }
{}

//! Laws about which statement is live for a leaf, each the contract of a function that does nothing.

ghost use Rattle.fir_leaf.specs.working.ChoiceLaws.{LivesAreLive, NothingWhereUndriven, StoredIsLive, StoresByReads};

/// What a block stores at a leaf is what the last statement gives that reaches the leaf, where each when and
/// each index goes by the values (FIRRTL spec, "Last Connect Semantics").
pub fn stored_is_live<V>()
    ensures { StoredIsLive V }
{}

/// The list of live statements for a leaf has exactly the statements that are last for it under some choice.
pub fn lives_are_live()
    ensures { LivesAreLive }
{}

/// A block stores nothing at a leaf exactly where the choice that the values make leaves the leaf undriven.
pub fn nothing_where_undriven<V>()
    ensures { NothingWhereUndriven V }
{}

/// Values that are the same at all leaves that live statements read for a leaf store the same there.
pub fn stores_by_reads()
    ensures { StoresByReads }
{}

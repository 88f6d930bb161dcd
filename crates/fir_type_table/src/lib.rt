//! The types of a circuit in one table, each under an id, with its sizes beside it. In come types
//! as the text writes them, and bundles that no text writes: of an instance, of a memory. Out come
//! answers on a type by its id: its fields and elements with their offsets, what it may be used
//! for, which types are equivalent. A type is told by its id, and never copied but into a fault
//! (FIRRTL spec, "Types", "Type Equivalence", "Passive Types").
//!
//! Entries stand in `table`; `add` puts them in, with the sizes that `sizes` finds (`saturated`). What is found
//! in one step is in `readers`, what walks down two types in `equivalent` and `partly`; `wanted`
//! finds the leaf that a fault of flow names, `first` the orientation of the first leaf, and `copy`
//! gives the type back as the text writes it.
#![tactic(auto)]

mod add;
mod copy;
mod entry;
mod equivalent;
mod first;
mod kind;
mod partly;
mod readers;
mod saturated;
mod sizes;
mod table;
mod wanted;

pub use entry::{Member, Part};
pub use kind::{Kind, TypeId};
pub use readers::FieldFound;
pub use saturated::times;
pub use table::TypeTable;

//! Where the modules of a design stand in its circuit (FIRRTL spec, "Instances"). A design's circuit has the leaves of
//! all its modules in one list, and their statements in one block (fir_leaf, fir_design). Here are laws about it, each
//! the contract of a function that does nothing: each leaf gets its value from one module, as that module gives it
//! (`copy_laws`), and the circuit has types, and its memories, and is driven where its modules are (`whole_laws`).
#![tactic(auto)]

mod copy_laws;
mod whole_laws;

pub use copy_laws::{copies_give_all, copies_stand};
pub use whole_laws::{designs_are_driven, designs_are_typed, designs_have_typed_memories};

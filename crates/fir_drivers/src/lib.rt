//! The last connect in a net: one walk over the statements of a module leaves each leaf the bound of what drives it
//! (FIRRTL spec, "Last Connect Semantics", "Conditional Last Connect Semantics"). In come the statements over the
//! leaves of the module and its nodes. What a when chooses for is collected before, once, so that the work does not
//! grow with the nesting.
#![tactic(auto)]

mod drivers;
mod drives;
mod setting;
mod slots;
mod starts;
mod statements;
mod targets;

pub use drivers::drivers_of;

//! The faults of circuits that leaves show (E24 to E28): what definitions over numbered leaves say of them is what
//! those by paths say (FIRRTL spec, "Initialization of Components", "Last Connect Semantics"). Each law is the
//! contract of a function that does nothing.
#![tactic(auto)]

mod drive_laws;
mod read_laws;
mod undriven_laws;

pub use drive_laws::drives_are_live_by_path;
pub use read_laws::terms_read_as_expressions;
pub use undriven_laws::leaves_are_undriven_by_path;

//! A circuit with its names: a `Named` is the tree of a text with a table of what each module declares (`names`) and
//! an order of the modules, each behind those that it has instances of. No fault of names stands in it. What is
//! visible where a name is used is one look-up in a module's table: no later pass walks scopes. fir_resolve finds
//! the names. FIRRTL spec, "Circuits", "Namespaces", "Instances".
#![tactic(auto)]

mod declaration;
mod named;
mod names;

pub use declaration::{Component, Declaration};
pub use named::Named;
pub use names::Names;

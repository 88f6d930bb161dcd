//! Whens and the last connect. In comes a circuit over its ground leaves; out comes one with a net for each module, in
//! which every leaf that statements drive has one driver (`lower_whens`; fir_merge, fir_drivers), or the first leaf
//! that some choice leaves undriven: E24 (FIRRTL spec, "Initialization of Components", "Conditional Last Connect
//! Semantics").
#![tactic(auto)]

mod driven;
mod lowered;
mod module;
mod module_net;
mod net_circuit;
mod net_role;
mod pass;
mod typed_modules;
mod undriven_groups;

pub use driven::check_driven;
pub use lowered::lower_whens;
pub use module_net::ModuleNet;
pub use net_circuit::NetCircuit;
pub use net_role::{NetReset, NetRole};
pub use pass::LowerWhens;
pub use typed_modules::modules_are_typed;

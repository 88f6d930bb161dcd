//! From the nets of a circuit's modules to one flat net (FIRRTL spec, "Circuits", "Instances"). In comes a circuit with
//! a net for each of its modules; out comes its flat net (`flattened`), which allows at every tick what
//! the circuit's source allows, with its names (`specs/`: FlattensTo); or the first fault of clocks (`clock_faults`), or
//! else of the clocks of memories (fir_memory_clocks), or else one of an asynchronous reset whose init is no constant. Each module of the design (`design_parts`) has its own
//! net there with numbers moved (`offsets`, `design_net`, `design_arrays`). Of its nodes those that some leaf needs are kept
//! (`kept_nodes`); each synchronous reset is merged into what its register takes, and an asynchronous one stays
//! (`flat_role`); ports of memories read arrays and write them (`array_ports`, `flat_arrays`).
#![tactic(auto)]

mod array_ports;
mod clock_evidence;
mod clock_faults;
mod design_arrays;
mod design_net;
mod design_parts;
mod flat_arrays;
mod flat_design;
mod flat_leaves;
mod flat_role;
mod flattened;
mod index_places;
mod kept_nodes;
mod laws;
mod live_sites;
mod main_number;
mod module_parts;
mod moved_roles;
mod offsets;
mod one_clocks;
mod plain_laws;
mod told_laws;
mod typed_memories;

pub use flattened::flatten;

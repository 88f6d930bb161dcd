//! What the leaves of a module are, and what gives them their values (FIRRTL spec, "Modules"). In comes a
//! `Fitted`; out comes a `LeafModule` (fir_leaf_circuit) for each module: its leaves in the order of their
//! declarations and of their types, each with what it holds and its role, its memories' arrays, and its statements
//! over leaves.
//!
//! Each module is walked twice (`leafed`), with what was found of it (`module_frame`): its expressions and
//! statements become nodes and statements over leaves (`ground_body`, by fir_ground), and then each declaration
//! gives its leaves (`ports`, `statements`). What they hold is told by the type that is found and the widths of
//! its leaves (`declared`, `push_leaves`, for a bundle field by field that has leaves: fir_width's `field_at`);
//! what gives them their values by the declaration (`giver`), the kind of a register's reset (`resets`), and the
//! ports of a memory (`memory_leaves`).
#![tactic(auto)]

mod declared;
mod drivers;
mod frame;
mod giver;
mod ground_body;
mod instances;
mod leaf_number;
mod leafed;
mod memory;
mod memory_arrays;
mod memory_fields;
mod memory_leaves;
mod memory_roles;
mod module_frame;
mod places;
mod port_places;
mod port_roles;
mod port_writings;
mod ports;
mod push;
mod push_leaves;
mod registers;
mod resets;
mod sinks;
mod statements;
mod type_leaves;
mod walk;
mod word_types;

pub use leafed::leafed_modules;

//! Circuits over ground leaves, by number: what the modules of a circuit are over their leaves, and what that
//! means (FIRRTL spec, "Connects", "Conditionals", "Instances", "Registers", "Memories"). Here are the types of
//! the code (`node`, `statement`), definitions (specs/), and laws about them, each the contract of a function
//! that does nothing: that numbers mean what paths mean (`laws`, `table_laws`); which statement is live for a
//! leaf (`choice_laws`); that a design as one list of leaves means what its modules mean (`design_laws`); of
//! runs and clocks (`run_laws`); and of faults (`fault_laws`).
#![tactic(auto)]

mod choice_laws;
mod design_laws;
mod fault_laws;
mod laws;
mod node;
mod run_laws;
mod statement;
mod table_laws;

pub use choice_laws::{lives_are_live, nothing_where_undriven, stored_is_live, stores_by_reads};
pub use design_laws::{
    arrays_are_those_of_the_design, arrays_have_bits, arrays_stand_once,
    circuits_clock_as_their_designs, circuits_store_as_their_designs,
    flat_clocks_are_those_of_the_design, flat_stores_are_those_of_the_design, has_design,
    instances_have_the_leaves_of_ports, leafed_ports_show_no_state, no_array_is_left_out,
    no_word_is_left_out, one_design, own_names_make_paths_distinct, words_are_those_of_the_design,
    words_show_state, words_stand_once,
};
pub use fault_laws::{chain_is_walk, closed_walk_shows_loop, faultless_has_step, ring_shows_loop};
pub use laws::{
    module_stores_are_those_by_path, stores_by_number_are_those_by_path,
    values_by_number_are_those_by_path,
};
pub use node::{Node, Pick, add};
pub use run_laws::{
    formed_keeps_shape, has_one_root, one_has_run, one_root_of, ring_never_ends, root_before,
    root_is_clock,
};
pub use statement::{Drive, LeafInstance, LeafStmt, LeafWhen};
pub use table_laws::{
    leaves_are_declared, leaves_follow_types, numbers_are_leaves, table_has_facts, table_stores,
};

//! What the source of a circuit means, in the words of the language: laws, each the contract of a function
//! that does nothing, over the definitions that say what a source allows. The last connect counts, whens run
//! one of their blocks, invalids store zero (`statement_laws`); an instance's port is its module's, and
//! instances share nothing (`instance_laws`); and what registers and memories hold and show, tick by tick
//! (`state_laws`). A wrong definition would break one of these.
#![tactic(auto)]

mod instance_laws;
mod state_laws;
mod statement_laws;

pub use instance_laws::{
    instances_are_of_their_modules, instances_count_no_when, instances_share_nothing,
    instances_store_below_their_paths, instances_store_by_leaf, main_module_is_on_top,
    modules_mean_one_thing, nothing_inside_is_input, ports_are_one_leaf,
    ports_of_instances_are_leaves, ports_read_as_stored, trees_have_what_their_instances_have,
};
pub use state_laws::{
    asynchronous_resets_act_at_once, asynchronous_resets_are_kept, idle_reads_pipe_zero,
    idle_reads_show_zero, memories_keep_masked_leaves, memories_keep_what_is_unwritten,
    memories_keep_without_edge_or_past_depth, memories_take_the_last_write,
    memories_take_the_later_write, memory_ports_are_driven, pipes_are_read_a_tick_later,
    pipes_keep_their_word, pipes_show_their_word, pipes_take_the_new_word, pipes_take_the_old_word,
    reads_show_their_word, registers_are_declared, registers_hold_until_an_edge,
    registers_hold_where_nothing_is_stored, registers_keep_their_word, registers_show_their_word,
    registers_take_what_is_stored, synchronous_resets_act_at_edges,
    writes_are_read_until_written_again,
};
pub use statement_laws::{
    connects_extend_or_cut, depths_are_whens, inner_leaves_count_no_outer_when,
    invalids_spare_sources, invalids_store_zero, last_connect_is_stored,
    last_connect_of_a_body_is_stored, last_partial_connect_is_stored, leaves_spared_by_trees_stay,
    spared_leaves_stay, subaccesses_pick, undriven_leaves_keep_what_they_show, whens_run_one_block,
};

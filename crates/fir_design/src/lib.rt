//! What the modules of a circuit mean together, by paths (FIRRTL spec, "Instances"), and laws, each the
//! contract of a function that does nothing: each module of a circuit without a fault of names or types has a
//! design over its ground leaves, and that is sound (`design_laws`; fir_leaf); the statements of its source
//! store the same by paths, instance by instance, and its declarations give the same roles (`source_laws`); so
//! both allow the same at every tick (`meaning_laws`).
#![tactic(auto)]

mod design_laws;
mod meaning_laws;
mod source_laws;

pub use design_laws::has_sound_designs;
pub use meaning_laws::{
    circuits_mean_their_sources, leaf_circuits_allow_what_their_sources_allow,
    leaf_circuits_have_the_shape_of_their_sources, one_source_has_run,
    sources_have_one_where_their_leaf_circuits_have, sources_stand_once,
};
pub use source_laws::{has_one_tree, views_clock_as_trees, views_have_roles, views_store_as_trees};

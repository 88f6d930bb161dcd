//! Laws about the definitions, each the contract of a function that does nothing.

ghost use Rattle.fir_flatten.specs.working.Laws.{DesignsFlatten, DesignsTellInits};

use crate::plain_laws::designs_are_plain;
use fir_bits::laws::has_its_type;
use fir_design::{
    has_one_tree, leaf_circuits_allow_what_their_sources_allow,
    leaf_circuits_have_the_shape_of_their_sources, sources_have_one_where_their_leaf_circuits_have,
};
use fir_design_loops::{inits_stand_by_path, loops_stand_by_path};
use fir_flat::{
    flat_nets_allow_the_same, flat_nets_have_one, flat_nets_hide_no_init, flat_nets_hide_no_loop,
    flat_nets_show_the_same_inits, flat_nets_show_the_same_loops,
};
use fir_leaf::leaves_follow_types;

/// A circuit means what the flat net of its design means, where the net's inits are constants: it has its ports and its
/// state, allows at every tick the same outputs and next states, and has a closed walk of dependence where that has one
/// (FIRRTL spec, "Circuits", "Modules", "Instances").
pub fn designs_flatten()
    ensures { DesignsFlatten }
{
    designs_are_plain();
    has_its_type();
    has_one_tree();
    leaf_circuits_have_the_shape_of_their_sources();
    leaf_circuits_allow_what_their_sources_allow();
    sources_have_one_where_their_leaf_circuits_have();
    flat_nets_allow_the_same();
    flat_nets_have_one();
    loops_stand_by_path();
    flat_nets_show_the_same_loops();
    flat_nets_hide_no_loop();
    leaves_follow_types();
}

/// An init of a register with an asynchronous reset reaches an input or a leaf that shows state in the flat net of a
/// design exactly where it does in its circuit (FIRRTL spec, "Registers", "Instances").
pub fn designs_tell_inits()
    ensures { DesignsTellInits }
{
    designs_are_plain();
    has_one_tree();
    inits_stand_by_path();
    flat_nets_show_the_same_inits();
    flat_nets_hide_no_init();
}

//! The flat net of a circuit over its ground leaves: in the place of statements and expressions stand nodes, and each
//! leaf keeps its number (FIRRTL spec, "Circuits", "Last Connect Semantics"). Here are what such a net is, and laws
//! about it, each the contract of a function that does nothing: it allows what the circuit allows, at every state and
//! tick; a closed walk of dependence, and an init of an asynchronous reset that is no constant, stand in it exactly where
//! they stand in the circuit; and the parts of the terms that give leaves their values have their types.
#![tactic(auto)]

mod laws;

pub use laws::{
    flat_nets_allow_the_same, flat_nets_have_one, flat_nets_hide_no_init, flat_nets_hide_no_loop,
    flat_nets_show_the_same_inits, flat_nets_show_the_same_loops, roles_are_whole,
};

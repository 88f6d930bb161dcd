//! What a circuit means: its leaves and their values, what its statements store, what it allows at each
//! tick, and which faults it shows (FIRRTL spec, "Connects", "Nodes", "Primitive Operations"). Here are
//! definitions, over the plain tree of fir_ast and the values of fir_bits, and the laws about them; every
//! pass cites them from here.
#![tactic(auto)]

mod laws;
mod type_laws;
mod width_laws;

pub use laws::one_look_up;
pub use type_laws::{
    connects_leaf_by_leaf, faultless_is_well_typed, leaves_have_numbers, partial_connects_fit,
    paths_are_distinct,
};
pub use width_laws::{
    has_least, inferred_exactly, least_is_within, one_least, over_is_exact, sized_as_typed,
    widths_grow,
};

//! The processes of a valid tree in any order, and the events of an edge in any order (IEEE 1364-2005, 11): laws
//! alone. A simulator takes processes one by one, and a block samples before or after another. Every order
//! ends in the values at rest, which are the same for all, and every edge leaves the one next state.
#![tactic(auto)]

mod laws;

pub use laws::{
    edges_leave_next, few_rounds_settle, next_has_shape, rounds_end_at_rest, shown_is_rest,
    steps_keep_rest, steps_keep_sources,
};

//! Dead logic removed. In comes a net with its order; out comes one that allows the same at every tick, in which each
//! leaf and each node is a port, a register or a pipe, or is needed by one of these or by what writes an array
//! (`drop_dead`). No port, register, pipe or array goes.
//!
//! What is needed is marked against the order, so that each leaf and node is met once (`needed`); the marked ones have
//! new numbers (`numbering`, `kept`), by which all that is read is written anew (`moved`, `moved_nodes`), leaf by leaf
//! and node by node (`kept_net`).
#![tactic(auto)]

mod dropping;
mod kept;
mod kept_net;
mod marks;
mod moved;
mod moved_nodes;
mod needed;
mod numbering;

pub use dropping::drop_dead;

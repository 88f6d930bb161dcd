//! The tree of the Verilog subset, and what it means: which bytes spell a tree, when a tree is valid,
//! which values its nets take, and which words its registers hold after a tick (a subset of IEEE
//! 1364-2005). The definitions stand in specs/; here are the types, and laws: the tokens of a text are those
//! that are read of it byte by byte, a text spells one tree at most, and a valid tree has exactly one choice of
//! values, one next state where its writes are in range, and one run at most.
#![tactic(auto)]

mod laws;
mod place;
mod tree;

pub use laws::{
    allows_one, places_count_for_nothing, runs_at_most_once, settled_has_one_next, spells_one_tree,
    tokens_are_read_step_by_step, tokens_have_one_place, valid_has_one_rest,
};
pub use place::VPlace;
pub use tree::{
    Always, Array, Assign, Atom, AtomForm, BinaryOp, Constant, Edge, Item, Net, Port, Resetting,
    Rhs, SignedOp, UnaryOp, Verilog, Write, Writing,
};

//! Expressions and statements of a module over its ground leaves, as nodes. In come the tree and what the
//! check of types has noted of each of its expressions, so that no name is looked up and nothing is typed
//! again; out come nodes, one for each leaf of an expression (fir_leaf `Node`, `terms`), and statements that
//! drive one leaf each (fir_leaf_pairs; FIRRTL spec, "Expressions", "References", "Connects", "Conditionals").
#![tactic(auto)]

mod absent;
mod connects;
mod driver;
mod expressions;
mod firsts;
mod forms;
mod frame;
mod ground;
mod leafwise;
mod notes;
mod reads;
mod references;
mod reset_kind;
mod sides;
mod source;
mod statements;
mod walk;

pub use connects::{in_connect, in_invalid, in_partial_connect};
pub use driver::{Driver, RegisterDriver, ResetDriver};
pub use expressions::{in_expression, in_first, in_reference};
pub use firsts::first_leaves;
pub use frame::Frame;
pub use ground::Ground;
pub use reads::read_all;
pub use reset_kind::ResetKind;
pub use source::{Source, in_source};
pub use statements::in_block;
pub use walk::Walk;

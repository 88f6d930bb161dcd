//! How far the walk over a module has come.

use crate::driver::Driver;
use fir_leaf::Node;
use fir_types::Note;

/// What the walk has still to read, the nodes that it has made, and what they give to declarations.
#[derive(Drop)]
pub struct Walk<'a> {
    /// What is found of the expressions that come.
    pub notes: &'a [Note],
    pub nodes: Vec<Node>,
    /// For each declaration that is passed, in their order.
    pub drivers: Vec<Driver>,
}

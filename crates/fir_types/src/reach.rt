//! What a reference reaches.

use crate::flow::Flow;
use crate::found::Found;

/// What a name and the parts behind it reach (FIRRTL spec, "References", "Flow").
#[derive(Clone, Copy)]
pub struct Reach {
    /// How many are declared in the module before what the name stands for.
    pub declaration: usize,
    pub found: Found,
    pub flow: Flow,
    /// Whether a path leads there: none does through a dynamic index into a vector of length 0.
    pub leads: bool,
    /// How many leaves of what the name stands for come before these; at most 2^64 - 1. A dynamic index
    /// counts as 0.
    pub offset: u64,
    /// The same where all elements of a vector share their leaves.
    pub shared_offset: u64,
}

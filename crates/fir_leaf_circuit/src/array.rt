//! The arrays of memories (FIRRTL spec, "Memories").

use crate::leaf::LeafType;

/// The words of one leaf of a memory's data.
#[derive(Drop)]
pub struct LeafArray {
    /// How many are declared in the module before the memory.
    pub declaration: usize,
    pub holds: LeafType,
    /// How many words there are.
    pub words: u128,
    /// What writes them, in the order of the ports.
    pub writings: Vec<Writing>,
}

/// What a port writes at each edge of its clock. All are numbers of leaves; enable and mask have to be 1, and
/// mode, where there is one, too.
#[derive(Clone, Copy)]
pub struct Writing {
    pub address: usize,
    pub enable: usize,
    pub mode: Option<usize>,
    pub mask: usize,
    pub clock: usize,
    /// The leaf that is written.
    pub given: usize,
}

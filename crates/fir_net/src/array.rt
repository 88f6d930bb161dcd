//! Arrays: the words of memories, one array for each leaf of a memory's data (FIRRTL spec, "Memories").

use crate::reads::Read;
use fir_ast::LeafId;
use fir_base::{Name, Seq};

/// What a leaf reads of an array: the word at an address, and zero past the end or while it is not enabled.
#[derive(Clone, Copy, PartialEq, Eq)]
pub struct ArrayRead {
    /// The number of the array in the net, from 0.
    pub array: usize,
    /// The number of the word, from 0.
    pub address: Read,
    /// One bit, which is 1 while something is read.
    pub enable: Read,
}

/// What is written into an array at an edge of a clock; past the end it does nothing.
#[derive(Drop)]
pub struct ArrayWrite {
    /// A clock's leaf.
    pub clock: LeafId,
    /// One bit, which is 1 where something is written.
    pub condition: Read,
    /// The number of the word, from 0.
    pub address: Read,
    /// The word that is written, of the type of the array's words.
    pub given: Read,
}

/// What a register takes of an array at an edge of a clock.
#[derive(Clone, Copy, PartialEq, Eq)]
pub struct Pipe {
    /// A clock's leaf.
    pub clock: LeafId,
    pub read: ArrayRead,
    /// Whether it takes the word as it is after all writes of the edge, and not as it was before them.
    pub is_new: bool,
}

/// An array. Of two writes of one word at one edge the later one counts.
#[derive(Drop)]
pub struct Array {
    /// Its path in the circuit as it is printed: that of its memory, and behind it that of the data's leaf.
    pub path: Name,
    /// Whether its words are read as signed.
    pub signed: bool,
    /// The width of its words in bits.
    pub width: u32,
    /// How many words it has.
    pub words: usize,
    /// In the order of the memory's ports.
    pub writes: Seq<ArrayWrite>,
}

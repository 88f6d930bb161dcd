//! A leaf of a module (FIRRTL spec, "Ports", "Wires", "Registers", "Nodes", "Instances", "Memories").

use fir_ast::{Place, ReadUnderWrite};
use fir_bits::NumTy;

/// What a leaf holds: a number of a type, or a clock.
#[derive(Clone, Copy)]
pub enum LeafType {
    Number(NumTy),
    Clock,
}

/// A leaf. Its path is that of a leaf of its declaration's type, behind the leaves of that declaration that
/// stand before it.
#[derive(Clone, Copy)]
pub struct Leaf {
    /// Where its declaration stands, or what drives it from the other side of an instance.
    pub place: Place,
    /// How many are declared in the module before what it is a leaf of.
    pub declaration: usize,
    pub holds: LeafType,
    /// How many whens stand round its declaration.
    pub depth: usize,
    pub role: LeafRole,
}

/// What gives a leaf its value. Nodes are named by their places in the module's list.
#[derive(Clone, Copy)]
pub enum LeafRole {
    /// An input of the module, or what an instance gives.
    Source,
    /// Statements.
    Sink,
    /// The node of a declared node's expression.
    Computed(usize),
    /// Statements at each edge: the node of the clock, and the reset.
    Register(usize, Option<ResetRole>),
    /// What a memory's port reads at once.
    Reading(ReadingRole),
    /// What a memory's port has read at the last edge of its clock, whose leaf this is.
    Pipe(ReadingRole, usize, ReadUnderWrite),
}

/// The reset of a register's leaf.
#[derive(Clone, Copy)]
pub struct ResetRole {
    pub is_async: bool,
    /// The node of its condition.
    pub condition: usize,
    /// The node of the value that it resets the leaf to.
    pub init: usize,
}

/// What a memory's port reads: the number of its array in the module, and of the leaves of its address, of
/// its enable, and of its mode, which has to be 0.
#[derive(Clone, Copy)]
pub struct ReadingRole {
    pub array: usize,
    pub address: usize,
    pub enable: usize,
    pub mode: Option<usize>,
}

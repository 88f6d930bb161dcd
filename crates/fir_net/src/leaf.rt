//! Leaves: what a circuit declares, one ground value each.

use crate::array::{ArrayRead, Pipe};
use crate::reads::Read;
use fir_ast::{LeafId, Place};
use fir_base::Name;

/// When a register's reset takes effect.
#[derive(Clone, Copy, PartialEq, Eq)]
pub enum ResetKind {
    /// At an edge of the register's clock.
    Synchronous,
    /// At once, and as long as its condition is 1.
    Asynchronous,
}

/// The reset of a register.
#[derive(Clone, Copy, PartialEq, Eq)]
pub struct Reset {
    pub kind: ResetKind,
    /// One bit, which is 1 while the register is reset.
    pub condition: Read,
    /// What the register takes then, fitted to its width.
    pub init: Read,
}

/// A register.
#[derive(Clone, Copy, PartialEq, Eq)]
pub struct Register {
    /// A clock's leaf.
    pub clock: LeafId,
    pub reset: Option<Reset>,
    /// What it takes at an edge of the clock, fitted to its width; without it, it holds its value.
    pub next: Option<Read>,
}

/// What gives a leaf its value.
#[derive(Clone, Copy, PartialEq, Eq)]
pub enum Role {
    /// An input port: the tick.
    Input,
    /// An input port of a clock: a clock of the tick.
    Clock,
    /// An output port: what drives it, fitted to its width.
    Output(Read),
    /// A wire or a node of the circuit: what drives it, fitted to its width.
    Wire(Read),
    /// The state.
    Register(Register),
    /// The data of a memory's port that reads at once: a word of the state.
    Reading(ArrayRead),
    /// The data of a memory's port that reads late: a word of the state, which it read at the last edge of its clock.
    Pipe(Pipe),
    /// An output port of a clock: another clock's leaf, or no clock.
    ClockOutput(Option<LeafId>),
    /// A wire or a node of a clock: another clock's leaf, or no clock.
    ClockWire(Option<LeafId>),
}

/// A leaf.
#[derive(Drop)]
pub struct Leaf {
    /// Its path in the circuit as it is printed: names with `.`, and indices in brackets.
    pub path: Name,
    /// Where it is declared.
    pub place: Place,
    /// Whether its value is read as signed, an SInt. A clock's is not.
    pub signed: bool,
    /// Its width in bits, which is 1 for a clock.
    pub width: u32,
    pub role: Role,
}

//! The faults of a circuit, each with its place and its evidence.

use crate::place::Place;
use crate::types::Ty;
use fir_base::{Name, Seq};

/// The outcome of a when or of a dynamic write under a choice.
#[derive(Clone, Copy)]
pub enum Outcome {
    /// A when at that place, and whether its condition is 1.
    When(Place, bool),
    /// A dynamic write at that place, and whether its index names the leaf.
    Index(Place, bool),
}

/// An end or a step of a walk that joins two kinds of reset.
#[derive(Drop)]
pub enum ResetStep {
    Leaf(Name),
    /// An expression that is no leaf.
    At(Place),
}

/// A fault. The first place of each is where it stands; names, leaf paths and words are texts.
pub enum FirFault {
    /// E01: a byte that is in no token.
    Byte(Place, u8),
    /// E02: a number of spaces that meets no open level.
    Indent(Place, u32),
    /// E02: a tab in an indentation.
    Tab(Place),
    /// E03: a literal out of form or range.
    BadLiteral(Place),
    /// E04: the first token with which no text of the grammar goes on.
    Syntax(Place),
    /// E05: a form that is not in the language, with its word.
    Unsupported(Place, Name),
    /// E06: nesting of 257.
    Depth(Place),
    /// E07: a version whose first number is not 1 or 2.
    Version(Place, u128),
    /// E08: a name that is not visible.
    Unknown(Place, Name),
    /// E09: a second declaration of a name, and the place of the first.
    Twice(Place, Name, Place),
    /// E10: no module has the circuit's name.
    NoModule(Place, Name),
    /// E11: a walk of modules by instances that closes.
    Recursive(Place, Seq<Name>),
    /// E12: operands, or one type, of kinds that are not allowed.
    Kinds(Place, Seq<Ty>),
    /// E12: a field that is not there.
    NoField(Place, Name),
    /// E13: a connect, an init or the arms of a mux that do not fit.
    Types(Place, Ty, Ty),
    /// E14: a connect that drives a source, with the leaf.
    Flow(Place, Name),
    /// E15: a type with flips where a passive one is needed.
    NotPassive(Place, Ty),
    /// E16: a plain index, and the length that it is not below.
    OutOfRange(Place, u128, u128),
    /// E17: a memory's name, and its field that is absent, twice or out of its range.
    MemoryField(Place, Name, Name),
    /// E18: a walk from a UInt to an AsyncReset.
    Resets(Place, Seq<ResetStep>),
    /// E19: a leaf's path, an operator's word or `literal`, whose width is over 128 bits.
    Over(Place, Name),
    /// E20: an input leaf of the main module without a width.
    PortWidth(Place, Name),
    /// E21: an operator's word, the width of its operand and its integers.
    Legality(Place, Name, Seq<u128>),
    /// E21: a literal whose number does not fit: its width, whether the number is negative, and its size.
    LiteralLegality(Place, u128, bool, u128),
    /// E22: a condition of another width than 1.
    Condition(Place, u128),
    /// E23: the cost of the circuit.
    Cost(Place, u64),
    /// E24: a leaf that is not driven, and the choice under which it is not.
    Undriven(Place, Name, Seq<Outcome>),
    /// E25: a clock leaf, and the places of two statements that drive it, or of an index twice.
    Clock(Place, Name, Place, Place),
    /// E26: a memory, and the clocks of two of its ports.
    MemoryClocks(Place, Name, Name, Name),
    /// E27: a walk from what a register's init reads to an input or a state.
    AsyncInit(Place, Seq<Name>),
    /// E28: a closed walk of dependence.
    Loop(Place, Seq<Name>),
}

// Not derived, so that a drop is a call, which is proved once.
impl Drop for FirFault {
    fn drop(self) {
        match self {
            FirFault::Byte(_, _)
            | FirFault::Indent(_, _)
            | FirFault::Tab(_)
            | FirFault::BadLiteral(_)
            | FirFault::Syntax(_)
            | FirFault::Unsupported(_, _)
            | FirFault::Depth(_)
            | FirFault::Version(_, _)
            | FirFault::Unknown(_, _)
            | FirFault::Twice(_, _, _)
            | FirFault::NoModule(_, _)
            | FirFault::Recursive(_, _)
            | FirFault::Kinds(_, _)
            | FirFault::NoField(_, _)
            | FirFault::Types(_, _, _)
            | FirFault::Flow(_, _)
            | FirFault::NotPassive(_, _)
            | FirFault::OutOfRange(_, _, _)
            | FirFault::MemoryField(_, _, _)
            | FirFault::Resets(_, _)
            | FirFault::Over(_, _)
            | FirFault::PortWidth(_, _)
            | FirFault::Legality(_, _, _)
            | FirFault::LiteralLegality(_, _, _, _)
            | FirFault::Condition(_, _)
            | FirFault::Cost(_, _)
            | FirFault::Undriven(_, _, _)
            | FirFault::Clock(_, _, _, _)
            | FirFault::MemoryClocks(_, _, _, _)
            | FirFault::AsyncInit(_, _)
            | FirFault::Loop(_, _) => {}
        }
    }
}

impl FirFault {
    ghost use Rattle.std.specs.Prelude.{◌≡◌};
    ghost use Rattle.fir_ast.specs.working.CodeFaults.{fault_place};

    /// Where the fault stands.
    pub fn place(&self) -> Place
        ensures { result ≡ fault_place self.now }
    {
        match self {
            FirFault::Byte(place, _)
            | FirFault::Indent(place, _)
            | FirFault::Tab(place)
            | FirFault::BadLiteral(place)
            | FirFault::Syntax(place)
            | FirFault::Unsupported(place, _)
            | FirFault::Depth(place)
            | FirFault::Version(place, _)
            | FirFault::Unknown(place, _)
            | FirFault::Twice(place, _, _)
            | FirFault::NoModule(place, _)
            | FirFault::Recursive(place, _)
            | FirFault::Kinds(place, _)
            | FirFault::NoField(place, _)
            | FirFault::Types(place, _, _)
            | FirFault::Flow(place, _)
            | FirFault::NotPassive(place, _)
            | FirFault::OutOfRange(place, _, _)
            | FirFault::MemoryField(place, _, _)
            | FirFault::Resets(place, _)
            | FirFault::Over(place, _)
            | FirFault::PortWidth(place, _)
            | FirFault::Legality(place, _, _)
            | FirFault::LiteralLegality(place, _, _, _)
            | FirFault::Condition(place, _)
            | FirFault::Cost(place, _)
            | FirFault::Undriven(place, _, _)
            | FirFault::Clock(place, _, _, _)
            | FirFault::MemoryClocks(place, _, _, _)
            | FirFault::AsyncInit(place, _)
            | FirFault::Loop(place, _) => *place,
        }
    }
}

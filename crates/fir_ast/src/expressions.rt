//! Expressions and references (FIRRTL spec, "Expressions").

use crate::place::Place;
use fir_base::Name;
use fir_bits::PrimOp;

/// An expression. Its place is that of its first token.
#[cycle(expressions)]
#[derive(Drop)]
pub enum Expr {
    Ref(Reference),
    Literal(Literal),
    /// An operator, with its operands and its integers.
    Op(Place, PrimOp, Vec<Expr>, Vec<u128>),
    /// `mux`: the condition, the value where it is 1, and the other.
    Mux(Place, Box<Expr>, Box<Expr>, Box<Expr>),
    /// `validif`: the condition and the value.
    Validif(Place, Box<Expr>, Box<Expr>),
}

/// A name and what follows it.
#[cycle(expressions)]
#[derive(Drop)]
pub struct Reference {
    /// Where the name stands.
    pub place: Place,
    pub name: Name,
    pub parts: Vec<Part>,
}

/// A part of a reference. Its first place is that of its first token, the `.` or the `[`.
#[cycle(expressions)]
#[derive(Drop)]
pub enum Part {
    /// `.name`, with the place of the field's name.
    Field(Place, Place, Name),
    /// `[index]`, with the place of the plain number.
    Index(Place, Place, u128),
    /// `[index]`, with an expression.
    Access(Place, Box<Expr>),
}

/// A literal.
#[derive(Clone, Copy, PartialEq, Eq)]
pub struct Literal {
    /// Where its word `UInt` or `SInt` stands.
    pub place: Place,
    pub signed: bool,
    /// The width in bits, where one is written.
    pub width: Option<u128>,
    /// Whether the number is below 0.
    pub negative: bool,
    /// How far the number is from 0.
    pub magnitude: u128,
}

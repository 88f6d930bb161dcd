//! Statements (FIRRTL spec, "Statements").

use crate::expressions::{Expr, Reference};
use crate::place::Place;
use crate::types::Ty;
use fir_base::Name;

/// A name where it is declared or named.
#[derive(Drop)]
pub struct Ident {
    pub place: Place,
    pub name: Name,
}

/// A statement. Its first place is that of its first token.
#[cycle(statements)]
#[derive(Drop)]
pub enum Stmt {
    /// A wire, with the place of the first token of its type.
    Wire(Place, Ident, Place, Ty),
    Reg(Place, Box<Register>),
    Node(Place, Ident, Expr),
    /// An instance, and the module of which it is one.
    Inst(Place, Ident, Ident),
    Mem(Place, Memory),
    When(Place, When),
    /// `sink <= source`
    Connect(Place, Reference, Expr),
    /// `sink <- source`
    PartialConnect(Place, Reference, Expr),
    /// `sink is invalid`
    Invalid(Place, Reference),
    Skip(Place),
}

/// A register.
#[derive(Drop)]
pub struct Register {
    pub ident: Ident,
    /// Where the first token of its type stands.
    pub type_place: Place,
    pub ty: Ty,
    pub clock: Expr,
    pub reset: Option<RegisterReset>,
}

/// What resets a register, and to what.
#[derive(Drop)]
pub struct RegisterReset {
    /// Where its word `with` stands.
    pub place: Place,
    pub condition: Expr,
    pub init: Expr,
}

/// A memory, with its fields as they are written.
#[derive(Drop)]
pub struct Memory {
    pub ident: Ident,
    pub fields: Vec<MemoryField>,
}

/// A field of a memory. Its first place is that of its first word.
#[derive(Drop)]
pub enum MemoryField {
    /// The type of its words, with the place of the first token of the type.
    DataType(Place, Place, Ty),
    Depth(Place, u128),
    ReadLatency(Place, u128),
    WriteLatency(Place, u128),
    Reader(Place, Vec<Ident>),
    Writer(Place, Vec<Ident>),
    Readwriter(Place, Vec<Ident>),
    ReadUnderWrite(Place, ReadUnderWrite),
}

/// What a read gives of a word that is written at the same edge.
#[derive(Clone, Copy)]
pub enum ReadUnderWrite {
    Old,
    New,
    Undefined,
}

/// A condition, the statements where it is 1, and those where it is 0. `else when` is an else block with
/// one when in it; a when without `else` has an empty one.
#[cycle(statements)]
#[derive(Drop)]
pub struct When {
    pub condition: Expr,
    pub then_block: Vec<Stmt>,
    pub else_block: Vec<Stmt>,
}

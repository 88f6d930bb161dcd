//! The tree of a circuit as the text spells it, with a place wherever a fault may stand, and the faults
//! E01 to E28; and the numbers of leaves and nodes. The definitions see the tree as plain data without
//! addresses (`specs/`: Types, Expressions, Statements, Circuits and View), and say what line is printed for
//! a fault (Faults, Texts).
#![tactic(auto)]

mod circuit;
mod expressions;
mod fault;
mod ids;
mod place;
mod statements;
mod types;

pub use circuit::{Circuit, Module, Port};
pub use expressions::{Expr, Literal, Part, Reference};
pub use fault::{FirFault, Outcome, ResetStep};
pub use fir_base::{MemoryOut, Refused};
pub use ids::{LeafId, NodeId};
pub use place::Place;
pub use statements::{
    Ident, Memory, MemoryField, ReadUnderWrite, Register, RegisterReset, Stmt, When,
};
pub use types::{Field, Ty};

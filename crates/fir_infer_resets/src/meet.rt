//! What meets in a circuit.

use fir_ast::{Ident, Place, Reference};
use fir_types::{Found, LeafRange};

/// What gives a side its value: what a reference names, or an expression by its place and type. Where it is
/// nothing, as a name that is not declared, it is None.
#[derive(Drop)]
pub enum Source<'a> {
    Reference(&'a Reference, Option<&'a LeafRange>),
    Value(Place, Option<Found>),
}

/// Two sides that meet.
#[derive(Drop)]
pub enum Meet<'a> {
    /// A connect, or else a partial connect.
    Connected(bool, &'a Reference, Option<&'a LeafRange>, Source<'a>),
    /// A node, its place among what the module declares, from 0 on, and its expression.
    Node(&'a Ident, usize, Source<'a>),
    /// An instance, and its place among what the module declares.
    Instance(&'a Ident, usize),
}

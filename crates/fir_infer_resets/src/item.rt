//! The leaves and expressions that resets are inferred along.

use crate::graph::Kind;
use fir_ast::Place;
use fir_base::Name;

/// A step of a path.
#[derive(Clone, Copy)]
pub enum Step<'a> {
    Named(&'a Name),
    Element(u128),
}

/// A leaf of the module of that number, by its path; or an expression that is no leaf, by its place.
#[derive(Drop)]
pub enum Item<'a> {
    Leaf(usize, Vec<Step<'a>>),
    Value(Place),
}

/// What it is, and where it is declared, or stands.
#[derive(Drop)]
pub struct End<'a> {
    pub item: Item<'a>,
    pub kind: Kind,
    pub place: Place,
}

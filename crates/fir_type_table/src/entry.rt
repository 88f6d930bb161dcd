//! An entry of the table: a type, and its sizes beside it.

use crate::kind::{Kind, TypeId};
use fir_ast::Place;
use fir_base::Name;
use std::collections::BTreeMap;

/// A field of a bundle that is to be made.
#[derive(Drop)]
pub struct Part {
    /// Where its name stands.
    pub place: Place,
    pub flip: bool,
    pub name: Name,
    /// Where its type begins.
    pub type_place: Place,
    pub ty: TypeId,
}

/// A field of a bundle, with the leaves before it.
#[derive(Drop)]
pub struct Member {
    pub place: Place,
    pub flip: bool,
    pub name: Name,
    pub type_place: Place,
    pub ty: TypeId,
    /// How many leaves of the bundle stand before its first; at most 2^64 - 1.
    pub offset: u64,
    /// The same where all elements of a vector share their leaves.
    pub shared_offset: u64,
}

#[derive(Drop)]
pub struct Entry {
    pub kind: Kind,
    /// The fields of a bundle in order, and for each name the number of its first field.
    pub members: Vec<Member>,
    pub by_name: BTreeMap<Name, usize>,
    /// How many leaves it has; at most 2^64 - 1.
    pub leaves: u64,
    /// How many where all elements of a vector share their leaves; at most 2^64 - 1.
    pub shared_leaves: u64,
    /// Whether no field of it is flipped, at any depth.
    pub is_passive: bool,
    /// Whether all its leaves are UInt or SInt.
    pub is_numeric: bool,
    /// Whether these have their widths written.
    pub is_sized: bool,
}

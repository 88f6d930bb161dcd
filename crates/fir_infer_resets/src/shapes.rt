//! How two types meet.

ghost use Rattle.fir_infer_resets.specs.working.Shapes.{AreElementShapes, AreShapes, IsForm};

use crate::graph::Kind;
use fir_type_table::{Kind as TypeKind, TypeId, TypeTable};
use fir_types::Found;

/// What two types have for each other.
#[derive(Clone, Copy)]
pub enum Shapes {
    /// Two bundles, by their ids, and whether each is without its widths.
    Bundles(TypeId, bool, TypeId, bool),
    /// The elements of two vectors, each of which has some.
    Vectors(Found, Found),
    /// Two ground types.
    Scalars(Kind, Kind),
    /// Nothing meets.
    Apart,
}

/// What a type is, as far as what meets goes.
#[derive(Clone, Copy)]
pub enum Form {
    Bundle(TypeId, bool),
    /// The elements, and how many there are.
    Vector(Found, u128),
    Scalar(Kind),
}

/// How two types meet.
pub fn shapes_of(table: &TypeTable, one: Found, other: Found) -> Shapes
    ensures { AreShapes table.now one other result }
{
    match form_of(table, one) {
        Form::Bundle(a, x) => match form_of(table, other) {
            Form::Bundle(b, y) => Shapes::Bundles(a, x, b, y),
            Form::Vector(_, _) => Shapes::Apart,
            Form::Scalar(_) => Shapes::Apart,
        },
        Form::Vector(s, n) => match form_of(table, other) {
            Form::Bundle(_, _) => Shapes::Apart,
            Form::Vector(t, m) => elements(s, n, t, m),
            Form::Scalar(_) => Shapes::Apart,
        },
        Form::Scalar(k) => match form_of(table, other) {
            Form::Bundle(_, _) => Shapes::Apart,
            Form::Vector(_, _) => Shapes::Apart,
            Form::Scalar(l) => Shapes::Scalars(k, l),
        },
    }
}

/// The elements of two vectors, so many.
fn elements(s: Found, n: u128, t: Found, m: u128) -> Shapes
    ensures { AreElementShapes s n t m result }
{
    if n == 0 || m == 0 {
        return Shapes::Apart;
    }
    Shapes::Vectors(s, t)
}

/// What a type is.
fn form_of(table: &TypeTable, found: Found) -> Form
    ensures { IsForm table.now found result }
{
    match found {
        Found::Number(false, _) => Form::Scalar(Kind::Unsigned),
        Found::Number(true, _) => Form::Scalar(Kind::Other),
        Found::AsyncReset => Form::Scalar(Kind::Asynchronous),
        Found::Type(id, is_bare) => match table.kind(id) {
            TypeKind::UInt(_) => Form::Scalar(Kind::Unsigned),
            TypeKind::SInt(_) => Form::Scalar(Kind::Other),
            TypeKind::Clock => Form::Scalar(Kind::Other),
            TypeKind::Reset => Form::Scalar(Kind::Reset),
            TypeKind::AsyncReset => Form::Scalar(Kind::Asynchronous),
            TypeKind::Bundle => Form::Bundle(id, is_bare),
            TypeKind::Vector(element, length) => {
                Form::Vector(Found::Type(element, is_bare), length)
            }
        },
    }
}

//! Types as the text writes them (FIRRTL spec, "Types").

ghost use Rattle.std.specs.Prelude.{◌≡◌, IfOk, map};
ghost use Rattle.fir_ast.specs.working.BundleText.{field_of};
ghost use Rattle.fir_ast.specs.working.TypeViews.{type_of};

use crate::place::Place;
use fir_base::{MemoryOut, Name};
use std::alloc::Global;

/// A type. A width that is not written is None.
#[cycle(types)]
#[derive(Drop)]
pub enum Ty {
    UInt(Option<u128>),
    SInt(Option<u128>),
    Clock,
    Reset,
    AsyncReset,
    /// A bundle and its fields, in order.
    Bundle(Vec<Field>),
    /// A vector: the type of its elements, and how many there are.
    Vector(Box<Ty>, u128),
}

/// A field of a bundle.
#[cycle(types)]
#[derive(Drop)]
pub struct Field {
    /// Where its name stands.
    pub place: Place,
    pub flip: bool,
    pub name: Name,
    /// Where the first token of its type stands.
    pub type_place: Place,
    pub ty: Ty,
}

impl Ty {
    /// A type that says the same, with memory of its own.
    #[cycle(copy)]
    pub fn copy(&self, alloc: Global) -> Result<Ty, MemoryOut>
        ensures { IfOk result (λ ty. type_of ty ≡ type_of self.now) }
    {
        match self {
            Ty::UInt(width) => Ok(Ty::UInt(*width)),
            Ty::SInt(width) => Ok(Ty::SInt(*width)),
            Ty::Clock => Ok(Ty::Clock),
            Ty::Reset => Ok(Ty::Reset),
            Ty::AsyncReset => Ok(Ty::AsyncReset),
            Ty::Bundle(fields) => Ok(Ty::Bundle(copy_fields(alloc, fields)?)),
            Ty::Vector(element, length) => {
                let element = Box::new(alloc, element.copy(alloc)?)?;
                Ok(Ty::Vector(element, *length))
            }
        }
    }
}

#[cycle(copy)]
fn copy_fields(alloc: Global, fields: &[Field]) -> Result<Vec<Field>, MemoryOut>
    ensures { IfOk result (λ copies. map field_of copies.items ≡ map field_of fields.now) }
{
    let mut copies = Vec::new(alloc);
    for field in fields {
        copies.push(Field {
            place: field.place,
            flip: field.flip,
            name: field.name.copy(alloc)?,
            type_place: field.type_place,
            ty: field.ty.copy(alloc)?,
        })?;
    }
    Ok(copies)
}

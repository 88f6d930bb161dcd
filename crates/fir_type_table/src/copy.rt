//! A type as the text writes it.

ghost use Rattle.std.specs.Prelude.{◌≡◌, IfOk, map};
ghost use Rattle.fir_ast.specs.View.{fields_of};
ghost use Rattle.fir_ast.specs.working.TypeViews.{type_of};
ghost use Rattle.fir_ast.specs.working.BundleText.{field_of};
ghost use Rattle.fir_type_table.specs.working.Tables.{member_fields, members_at, shown, shown_fields, type_at, types_of};

use crate::kind::{Kind, TypeId};
use crate::table::TypeTable;
use fir_ast::{Field, Ty};
use fir_base::MemoryOut;
use std::alloc::Global;

impl TypeTable {
    /// A type as the text writes it, with its widths or bare of them.
    #[cycle(copy)]
    pub fn ty(&self, alloc: Global, id: TypeId, bare: bool) -> Result<Ty, MemoryOut>
        ensures { IfOk result (λ t. type_of t ≡ shown bare (type_at (types_of self.now) id.number)) }
    {
        match self.kind(id) {
            Kind::UInt(width) => Ok(Ty::UInt(if bare { None } else { width })),
            Kind::SInt(width) => Ok(Ty::SInt(if bare { None } else { width })),
            Kind::Clock => Ok(Ty::Clock),
            Kind::Reset => Ok(Ty::Reset),
            Kind::AsyncReset => Ok(Ty::AsyncReset),
            Kind::Bundle => Ok(Ty::Bundle(self.written_fields(alloc, id, bare)?)),
            Kind::Vector(element, length) => {
                let element = Box::new(alloc, self.ty(alloc, element, bare)?)?;
                Ok(Ty::Vector(element, length))
            }
        }
    }

    #[cycle(copy)]
    fn written_fields(&self, alloc: Global, id: TypeId, bare: bool) -> Result<Vec<Field>, MemoryOut>
        ensures { IfOk result (λ copies. fields_of (map field_of copies.items) ≡ shown_fields bare (member_fields (types_of self.now) (members_at self.now id.number))) }
    {
        let mut copies = Vec::new(alloc);
        for member in self.members(id) {
            copies.push(Field {
                place: member.place,
                flip: member.flip,
                name: member.name.copy(alloc)?,
                type_place: member.type_place,
                ty: self.ty(alloc, member.ty, bare)?,
            })?;
        }
        Ok(copies)
    }
}

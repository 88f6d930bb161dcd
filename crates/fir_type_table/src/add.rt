//! Types are put in.

ghost use Rattle.std.specs.Prelude.{◌≡◌, ◌<◌, Some, [], IfOk, IfSome, length, map, slice_get};
ghost use Rattle.std.specs.List.{All};
ghost use Rattle.fir_ast.specs.Types.{bundle, uint, vector};
ghost use Rattle.fir_ast.specs.View.{fields_of};
ghost use Rattle.fir_ast.specs.working.TypeViews.{type_of};
ghost use Rattle.fir_ast.specs.working.BundleText.{field_of};
ghost use Rattle.fir_meaning.specs.MemoryTypes.{mask_fields, mask_type};
ghost use Rattle.fir_type_table.specs.working.Fits.{FitsAt, IsScalar, grounds};
ghost use Rattle.fir_type_table.specs.working.Adding.{AddsParts};
ghost use Rattle.fir_type_table.specs.working.Tables.{Adds, made_of, member_fields, members_at, part_fields, part_of, type_at, types_of};

use crate::entry::{Entry, Part};
use crate::kind::{Kind, TypeId};
use crate::sizes::scalar_entry;
use crate::table::TypeTable;
use fir_ast::{Field, Ty};
use fir_base::MemoryOut;
use std::alloc::Global;

impl TypeTable {
    /// The table of the types that have an id in every table.
    pub fn new(alloc: Global) -> Result<TypeTable, MemoryOut>
        ensures { IfOk result (λ t. types_of t ≡ grounds) }
    {
        let entries = Vec::from_array(
            alloc,
            [
                scalar_entry(alloc, Kind::UInt(None)),
                scalar_entry(alloc, Kind::SInt(None)),
                scalar_entry(alloc, Kind::Clock),
                scalar_entry(alloc, Kind::Reset),
                scalar_entry(alloc, Kind::AsyncReset),
                scalar_entry(alloc, Kind::UInt(Some(1))),
            ],
        )?;
        Ok(TypeTable { entries })
    }

    /// Puts in a type as the text writes it.
    pub fn add(&mut self, alloc: Global, ty: &Ty) -> Result<TypeId, MemoryOut>
        ensures { IfOk result (λ id. Adds self.old self.new id.number (type_of ty.now)) }
    {
        add_type(ty, alloc, self)
    }

    /// Puts in a UInt of that width.
    pub fn add_uint(&mut self, width: u128) -> Result<TypeId, MemoryOut>
        ensures { IfOk result (λ id. Adds self.old self.new id.number (uint (Some width))) }
    {
        self.add_scalar(Kind::UInt(Some(width)))
    }

    /// Puts in a ground type, unless each table has it.
    fn add_scalar(&mut self, kind: Kind) -> Result<TypeId, MemoryOut>
        requires { IsScalar kind }
        ensures { IfOk result (λ id. Adds self.old self.new id.number (made_of [] kind [])) }
    {
        let alloc = *self.entries.allocator();
        if let Some(id) = constant(kind) {
            return Ok(id);
        }
        self.put(scalar_entry(alloc, kind))
    }

    /// Puts in a bundle of fields whose types stand in the table.
    pub fn add_bundle(&mut self, alloc: Global, parts: Vec<Part>) -> Result<TypeId, MemoryOut>
        requires { All (λ p. p.ty.number < length (types_of self.old)) parts.items }
        ensures { IfOk result (λ id. Adds self.old self.new id.number (bundle (fields_of (map (part_of (types_of self.old)) parts.items)))) }
    {
        let entry = self.bundle_entry(alloc, parts)?;
        self.put(entry)
    }

    /// Puts in a vector of elements whose type stands in the table.
    pub fn add_vector(&mut self, element: TypeId, count: u128) -> Result<TypeId, MemoryOut>
        requires { element.number < length (types_of self.old) }
        ensures { IfOk result (λ id. Adds self.old self.new id.number (vector (type_at (types_of self.old) element.number) count)) }
    {
        let alloc = *self.entries.allocator();
        let entry = self.vector_entry(alloc, element, count);
        self.put(entry)
    }

    /// Puts in the mask of a type: a bit for each of its leaves.
    #[cycle(mask)]
    pub fn add_mask(&mut self, alloc: Global, id: TypeId) -> Result<TypeId, MemoryOut>
        requires { id.number < length (types_of self.old) }
        ensures { IfOk result (λ m. Adds self.old self.new m.number (mask_type (type_at (types_of self.old) id.number))) }
    {
        match self.kind(id) {
            Kind::Bundle => self.add_bundle_mask(alloc, id),
            Kind::Vector(element, length) => {
                let mask = self.add_mask(alloc, element)?;
                self.add_vector(mask, length)
            }
            _ => self.add_uint(1),
        }
    }

    /// The same of a bundle, field by field.
    #[cycle(mask)]
    fn add_bundle_mask(&mut self, alloc: Global, id: TypeId) -> Result<TypeId, MemoryOut>
        requires { id.number < length (types_of self.old) }
        ensures { IfOk result (λ m. Adds self.old self.new m.number (bundle (mask_fields (member_fields (types_of self.old) (members_at self.old id.number))))) }
    {
        let mut masks = Vec::new(alloc);
        for part in self.parts(alloc, id)? {
            let Part {
                place,
                flip,
                name,
                type_place,
                ty,
            } = part;
            let ty = self.add_mask(alloc, ty)?;
            masks.push(Part {
                place,
                flip,
                name,
                type_place,
                ty,
            })?;
        }
        self.add_bundle(alloc, masks)
    }

    /// The fields of a bundle, as those of one that is to be made.
    fn parts(&self, alloc: Global, id: TypeId) -> Result<Vec<Part>, MemoryOut>
        ensures fields { IfOk result (λ ps. part_fields (types_of self.now) ps.items ≡ member_fields (types_of self.now) (members_at self.now id.number)) }
        ensures below { IfOk result (λ ps. All (λ p. p.ty.number < id.number) ps.items) }
    {
        let mut parts = Vec::new(alloc);
        for member in self.members(id) {
            parts.push(Part {
                place: member.place,
                flip: member.flip,
                name: member.name.copy(alloc)?,
                type_place: member.type_place,
                ty: member.ty,
            })?;
        }
        Ok(parts)
    }

    /// Puts in an entry that fits behind the others.
    fn put(&mut self, entry: Entry) -> Result<TypeId, MemoryOut>
        requires { FitsAt (types_of self.old) (length (types_of self.old)) entry }
        ensures { IfOk result (λ id. Adds self.old self.new id.number (made_of (types_of self.old) entry.kind entry.members.items)) }
    {
        let number = self.entries.len();
        self.entries.push(entry)?;
        Ok(TypeId { number })
    }
}

/// The id of a ground type of which each table has one.
fn constant(kind: Kind) -> Option<TypeId>
    ensures { IfSome result (λ id. slice_get grounds id.number ≡ Some (made_of [] kind [])) }
{
    match kind {
        Kind::UInt(None) => Some(TypeId::UINT),
        Kind::UInt(Some(1)) => Some(TypeId::BIT),
        Kind::SInt(None) => Some(TypeId::SINT),
        Kind::Clock => Some(TypeId::CLOCK),
        Kind::Reset => Some(TypeId::RESET),
        Kind::AsyncReset => Some(TypeId::ASYNC_RESET),
        _ => None,
    }
}

#[cycle(add)]
fn add_type(ty: &Ty, alloc: Global, table: &mut TypeTable) -> Result<TypeId, MemoryOut>
    ensures { IfOk result (λ id. Adds table.old table.new id.number (type_of ty.now)) }
{
    match ty {
        Ty::UInt(width) => table.add_scalar(Kind::UInt(*width)),
        Ty::SInt(width) => table.add_scalar(Kind::SInt(*width)),
        Ty::Clock => table.add_scalar(Kind::Clock),
        Ty::Reset => table.add_scalar(Kind::Reset),
        Ty::AsyncReset => table.add_scalar(Kind::AsyncReset),
        Ty::Bundle(fields) => {
            let parts = add_fields(fields, alloc, table)?;
            table.add_bundle(alloc, parts)
        }
        Ty::Vector(element, length) => {
            let element = add_type(element, alloc, table)?;
            table.add_vector(element, *length)
        }
    }
}

/// Puts in the types of fields.
#[cycle(add)]
fn add_fields(
    fields: &[Field],
    alloc: Global,
    table: &mut TypeTable,
) -> Result<Vec<Part>, MemoryOut>
    ensures { IfOk result (λ ps. AddsParts table.old table.new ps.items (fields_of (map field_of fields.now))) }
{
    let mut parts = Vec::new(alloc);
    for field in fields {
        let ty = add_type(&field.ty, alloc, table)?;
        parts.push(Part {
            place: field.place,
            flip: field.flip,
            name: field.name.copy(alloc)?,
            type_place: field.type_place,
            ty,
        })?;
    }
    Ok(parts)
}

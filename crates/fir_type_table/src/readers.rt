//! What the table tells of a type in one step.

ghost use Rattle.std.specs.Prelude.{◌≡◌, ◌<◌, IfSome, MatchOption, Some, length, nat_lt, option_map, slice_get};
ghost use Rattle.std.specs.List.{All};
ghost use Rattle.fir_ast.specs.Types.{clock};
ghost use Rattle.fir_meaning.specs.MemoryTypes.{bit};
ghost use Rattle.fir_meaning.specs.TypeKinds.{is_numeric, is_passive, is_sized};
ghost use Rattle.fir_meaning.specs.TypeLeaves.{leaf_count};
ghost use Rattle.fir_meaning.specs.Reaching.{field_of_type};
ghost use Rattle.fir_meaning.specs.SharedLeaves.{shared_count};
ghost use Rattle.fir_type_table.specs.working.Fits.{IsMadeBelow};
ghost use Rattle.fir_type_table.specs.working.Reads.{IsPast, IsReadAt};
ghost use Rattle.fir_type_table.specs.working.Saturated.{saturated};
ghost use Rattle.fir_type_table.specs.working.Found.{IsFieldFound, found_of};
ghost use Rattle.fir_meaning.specs.working.FieldSizes.{leaves_before, shared_before};
ghost use Rattle.fir_type_table.specs.working.Tables.{made_of, members_at, type_at, types_of};

use crate::entry::{Entry, Member};
use crate::kind::{Kind, TypeId};
use crate::table::TypeTable;
use fir_base::Name;

/// A field of a bundle: its orientation, its type, and the leaves of the bundle before it.
#[derive(Clone, Copy)]
pub struct FieldFound {
    pub flip: bool,
    pub ty: TypeId,
    /// At most 2^64 - 1.
    pub offset: u64,
    /// The same where all elements of a vector share their leaves.
    pub shared_offset: u64,
}

impl TypeTable {
    /// The entry of an id.
    fn entry(&self, id: TypeId) -> Option<&Entry>
        ensures { MatchOption result (IsPast self.now id.number) (λ e. IsReadAt self.now id.number e.now) }
    {
        self.entries.get(id.number)
    }

    /// Whether a type stands under the id.
    pub fn has(&self, id: TypeId) -> bool
        ensures { result ≡ nat_lt id.number (length (types_of self.now)) }
    {
        id.number < self.entries.len()
    }

    /// A Clock.
    pub fn clock(&self) -> TypeId
        ensures { slice_get (types_of self.now) result.number ≡ Some clock }
    {
        // Each table has it, as the invariant of its entries says.
        let _ = &self.entries;
        TypeId::CLOCK
    }

    /// A UInt of one bit.
    pub fn bit(&self) -> TypeId
        ensures { slice_get (types_of self.now) result.number ≡ Some bit }
    {
        // Each table has it, as the invariant of its entries says.
        let _ = &self.entries;
        TypeId::BIT
    }

    /// What a type is made of.
    pub fn kind(&self, id: TypeId) -> Kind
        ensures made { type_at (types_of self.now) id.number ≡ made_of (types_of self.now) result (members_at self.now id.number) }
        ensures below { IsMadeBelow id.number result }
    {
        match self.entry(id) {
            Some(entry) => entry.kind,
            None => Kind::UInt(None),
        }
    }

    /// The fields of a bundle, in order; of another type none.
    pub fn members(&self, id: TypeId) -> &[Member]
        ensures members { result.now ≡ members_at self.now id.number }
        ensures below { All (λ m. m.ty.number < id.number) result.now }
    {
        match self.entry(id) {
            Some(entry) => entry.members.as_slice(),
            None => &[],
        }
    }

    /// Whether no field of a type is flipped, at any depth.
    pub fn is_passive(&self, id: TypeId) -> bool
        ensures { result ≡ is_passive (type_at (types_of self.now) id.number) }
    {
        match self.entry(id) {
            Some(entry) => entry.is_passive,
            None => true,
        }
    }

    /// Whether all leaves of a type are UInt or SInt.
    pub fn is_numeric(&self, id: TypeId) -> bool
        ensures { result ≡ is_numeric (type_at (types_of self.now) id.number) }
    {
        match self.entry(id) {
            Some(entry) => entry.is_numeric,
            None => true,
        }
    }

    /// Whether they have their widths written too.
    pub fn is_sized(&self, id: TypeId) -> bool
        ensures { result ≡ is_sized (type_at (types_of self.now) id.number) }
    {
        match self.entry(id) {
            Some(entry) => entry.is_sized,
            None => false,
        }
    }

    /// How many leaves a type has; at most 2^64 - 1.
    pub fn leaves(&self, id: TypeId) -> u64
        ensures { result ≡ saturated (leaf_count (type_at (types_of self.now) id.number)) }
    {
        match self.entry(id) {
            Some(entry) => entry.leaves,
            None => 1,
        }
    }

    /// How many where all elements of a vector share their leaves; at most 2^64 - 1.
    pub fn shared_leaves(&self, id: TypeId) -> u64
        ensures { result ≡ saturated (shared_count (type_at (types_of self.now) id.number)) }
    {
        match self.entry(id) {
            Some(entry) => entry.shared_leaves,
            None => 1,
        }
    }

    /// The first field of that name of a bundle.
    pub fn field(&self, id: TypeId, name: &Name) -> Option<FieldFound>
        ensures found { option_map (found_of (types_of self.now)) result ≡ field_of_type name.now (type_at (types_of self.now) id.number) }
        ensures offset { IfSome result (λ f. f.offset ≡ saturated (leaves_before name.now (type_at (types_of self.now) id.number))) }
        ensures shared_offset { IfSome result (λ f. f.shared_offset ≡ saturated (shared_before name.now (type_at (types_of self.now) id.number))) }
        ensures below { IfSome result (λ f. f.ty.number < id.number) }
    {
        let member = self.member_named(id, name)?;
        Some(FieldFound {
            flip: member.flip,
            ty: member.ty,
            offset: member.offset,
            shared_offset: member.shared_offset,
        })
    }

    /// The first member of that name of a bundle.
    fn member_named(&self, id: TypeId, name: &Name) -> Option<&Member>
        ensures { IsFieldFound self.now id.number name.now (option_map (λ m. m.now) result) }
    {
        let entry = self.entry(id)?;
        let Kind::Bundle = entry.kind else {
            return None;
        };
        let Some(number) = entry.by_name.get(name) else {
            return None;
        };
        entry.members.get(*number)
    }
}

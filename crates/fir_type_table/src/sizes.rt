//! The entries of types that are to be made, with their sizes.

ghost use Rattle.std.specs.Prelude.{◌≡◌, ℕ, ◌*◌, ◌<◌, List, [], ◌∷◌, IfOk, length, map};
ghost use Rattle.std.specs.List.{All};
ghost use Rattle.std.specs.BTreeMap.{get};
ghost use Rattle.std.specs.Cmp.Lexicographic.{slice_cmp};
ghost use Rattle.std.specs.Ordering.{nat_cmp};
ghost use Rattle.fir_ast.specs.Types.{DataType};
ghost use Rattle.fir_ast.specs.View.{fields_of};
ghost use Rattle.fir_meaning.specs.TypeKinds.{are_numeric, are_passive, are_sized};
ghost use Rattle.fir_meaning.specs.TypeLeaves.{field_count};
ghost use Rattle.fir_meaning.specs.SharedLeaves.{shared_field_count};
ghost use Rattle.fir_type_table.specs.working.Fits.{FitsAt, HasOffsets, IsScalar, first_member};
ghost use Rattle.fir_type_table.specs.working.Saturated.{saturated};
ghost use Rattle.fir_type_table.specs.working.Tables.{member_fields, part_fields, types_of};
ghost use Rattle.fir_type_table.specs.working.Made.{MakesEntry, MakesMembers};

use crate::entry::{Entry, Member, Part};
use crate::kind::{Kind, TypeId};
use crate::saturated::times;
use crate::table::TypeTable;
use fir_base::{MemoryOut, Name};
use std::alloc::Global;
use std::collections::BTreeMap;

/// The entry of a ground type.
pub(crate) fn scalar_entry(alloc: Global, kind: Kind) -> Entry
    ensures kind { result.kind ≡ kind }
    ensures members { result.members.items ≡ [] }
    ensures fits { IsScalar kind → (ts : List DataType) (i : ℕ) → FitsAt ts i result }
{
    Entry {
        kind,
        members: Vec::new(alloc),
        by_name: BTreeMap::new(alloc),
        leaves: 1,
        shared_leaves: 1,
        is_passive: true,
        is_numeric: matches!(kind, Kind::UInt(_) | Kind::SInt(_)),
        is_sized: matches!(kind, Kind::UInt(Some(_)) | Kind::SInt(Some(_))),
    }
}

impl TypeTable {
    /// The entry of a vector of elements that stand in the table.
    pub(crate) fn vector_entry(&self, alloc: Global, element: TypeId, count: u128) -> Entry
        ensures kind { result.kind ≡ Kind.Vector element count }
        ensures fits { (i : ℕ) → element.number < i → FitsAt (types_of self.now) i result }
    {
        Entry {
            kind: Kind::Vector(element, count),
            members: Vec::new(alloc),
            by_name: BTreeMap::new(alloc),
            leaves: times(count, self.leaves(element)),
            shared_leaves: self.shared_leaves(element),
            is_passive: self.is_passive(element),
            is_numeric: count == 0 || self.is_numeric(element),
            is_sized: count == 0 || self.is_sized(element),
        }
    }

    /// The entry of a bundle of these fields.
    pub(crate) fn bundle_entry(&self, alloc: Global, parts: Vec<Part>) -> Result<Entry, MemoryOut>
        ensures { IfOk result (λ e. MakesEntry (types_of self.now) parts.items e) }
    {
        let members = self.placed_members(alloc, parts)?;
        let by_name = first_numbers(alloc, &members)?;
        Ok(Entry {
            kind: Kind::Bundle,
            leaves: self.sum_of_leaves(&members),
            shared_leaves: self.sum_of_shared_leaves(&members),
            is_passive: self.are_passive(&members),
            is_numeric: self.are_numeric(&members),
            is_sized: self.are_sized(&members),
            by_name,
            members,
        })
    }

    /// The fields with the leaves before each.
    fn placed_members(&self, alloc: Global, parts: Vec<Part>) -> Result<Vec<Member>, MemoryOut>
        ensures { IfOk result (λ ms. MakesMembers (types_of self.now) parts.items ms.items) }
    {
        let mut members = Vec::new(alloc);
        let mut offset = 0u64;
        let mut shared_offset = 0u64;
        for part in parts {
            let Part {
                place,
                flip,
                name,
                type_place,
                ty,
            } = part;
            members.push(Member {
                place,
                flip,
                name,
                type_place,
                ty,
                offset,
                shared_offset,
            })?;
            offset = offset.saturating_add(self.leaves(ty));
            shared_offset = shared_offset.saturating_add(self.shared_leaves(ty));
        }
        Ok(members)
    }

    fn sum_of_leaves(&self, members: &[Member]) -> u64
        ensures { result ≡ saturated (field_count (member_fields (types_of self.now) members.now)) }
    {
        let mut sum = 0u64;
        for member in members {
            sum = sum.saturating_add(self.leaves(member.ty));
        }
        sum
    }

    fn sum_of_shared_leaves(&self, members: &[Member]) -> u64
        ensures { result ≡ saturated (shared_field_count (member_fields (types_of self.now) members.now)) }
    {
        let mut sum = 0u64;
        for member in members {
            sum = sum.saturating_add(self.shared_leaves(member.ty));
        }
        sum
    }

    fn are_passive(&self, members: &[Member]) -> bool
        ensures { result ≡ are_passive (member_fields (types_of self.now) members.now) }
    {
        for member in members {
            if member.flip || !self.is_passive(member.ty) {
                return false;
            }
        }
        true
    }

    fn are_numeric(&self, members: &[Member]) -> bool
        ensures { result ≡ are_numeric (member_fields (types_of self.now) members.now) }
    {
        for member in members {
            if !self.is_numeric(member.ty) {
                return false;
            }
        }
        true
    }

    fn are_sized(&self, members: &[Member]) -> bool
        ensures { result ≡ are_sized (member_fields (types_of self.now) members.now) }
    {
        for member in members {
            if !self.is_sized(member.ty) {
                return false;
            }
        }
        true
    }
}

/// For each name the number of the first field that has it.
fn first_numbers(alloc: Global, members: &[Member]) -> Result<BTreeMap<Name, usize>, MemoryOut>
    ensures { IfOk result (λ numbers. (n : List ℕ) → get (slice_cmp nat_cmp) numbers n ≡ first_member n 0 members.now) }
{
    let mut numbers = BTreeMap::new(alloc);
    for (number, member) in members.iter().enumerate() {
        if !numbers.contains_key(&member.name) {
            numbers.insert(member.name.copy(alloc)?, number)?;
        }
    }
    Ok(numbers)
}

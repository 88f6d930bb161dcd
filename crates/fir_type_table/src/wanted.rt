//! The first leaf of an orientation, which a fault of flow names (FIRRTL spec, "Flow").

ghost use Rattle.std.specs.Prelude.{◌≡◌, IfOk, OnOk, ◌++◌, flat_map, map, option_map};
ghost use Rattle.fir_meaning.specs.LeafPaths.{element, named, step_text};
ghost use Rattle.fir_meaning.specs.TypeLeaves.{field_leaves, type_leaves, under};
ghost use Rattle.fir_meaning.specs.ConnectPairs.{partial_pairs};
ghost use Rattle.fir_type_table.specs.working.Tables.{member_fields, members_at, type_at, types_of};
ghost use Rattle.fir_type_table.specs.working.Wanted.{IsPathFound, first_wanted, first_wanted_pair, path_kept};
ghost use Rattle.fir_type_table.specs.working.Lefts.{left_leaves, left_field_leaves, left_leaves_under};

use crate::entry::Member;
use crate::kind::{Kind, TypeId};
use crate::table::TypeTable;
use fir_base::{MemoryOut, Name};
use std::alloc::Global;

impl TypeTable {
    /// The path within a type to its first leaf that is wanted: straight, flipped, or either.
    pub fn first_leaf(
        &self,
        alloc: Global,
        id: TypeId,
        straight: bool,
        flipped: bool,
    ) -> Result<Option<Vec<u8>>, MemoryOut>
        ensures { IfOk result (λ r. option_map (λ v. v.items) r ≡ option_map (flat_map step_text) (first_wanted straight flipped (type_leaves (type_at (types_of self.now) id.number)))) }
    {
        let mut path = Vec::new(alloc);
        if self.find_leaf(id, straight, flipped, &mut path)? {
            return Ok(Some(path));
        }
        Ok(None)
    }

    /// The path within the left side of a partial connect to the first of its leaves that is paired
    /// and wanted.
    pub fn first_partial_leaf(
        &self,
        alloc: Global,
        a: TypeId,
        b: TypeId,
        straight: bool,
        flipped: bool,
    ) -> Result<Option<Vec<u8>>, MemoryOut>
        ensures { IfOk result (λ r. option_map (λ v. v.items) r ≡ option_map (flat_map step_text) (first_wanted_pair straight flipped (partial_pairs (type_at (types_of self.now) a.number) (type_at (types_of self.now) b.number)))) }
    {
        let mut path = Vec::new(alloc);
        if self.find_partial_leaf(a, b, straight, flipped, &mut path)? {
            return Ok(Some(path));
        }
        Ok(None)
    }

    /// Writes the path behind what stands there. Where there is no such leaf nothing is written. All
    /// elements of a vector have the same leaves, so only its first element is entered.
    #[cycle(wanted)]
    fn find_leaf(
        &self,
        id: TypeId,
        straight: bool,
        flipped: bool,
        path: &mut Vec<u8>,
    ) -> Result<bool, MemoryOut>
        ensures { IfOk result (λ found. IsPathFound path.old.items path.new.items found (first_wanted straight flipped (type_leaves (type_at (types_of self.now) id.number)))) }
    {
        match self.kind(id) {
            Kind::Bundle => self.find_in_bundle(id, straight, flipped, path),
            Kind::Vector(element, length) => {
                if length == 0 {
                    return Ok(false);
                }
                let before = path.len();
                put_first_element(path)?;
                let found = self.find_leaf(element, straight, flipped, path)?;
                Ok(kept(path, before, found))
            }
            _ => Ok(straight),
        }
    }

    #[cycle(wanted)]
    fn find_in_bundle(
        &self,
        id: TypeId,
        straight: bool,
        flipped: bool,
        path: &mut Vec<u8>,
    ) -> Result<bool, MemoryOut>
        ensures { IfOk result (λ found. IsPathFound path.old.items path.new.items found (first_wanted straight flipped (field_leaves (member_fields (types_of self.now) (members_at self.now id.number))))) }
    {
        for member in self.members(id) {
            if self.find_in_member(member, straight, flipped, path)? {
                return Ok(true);
            }
        }
        Ok(false)
    }

    /// Below a flipped field straight is flipped.
    #[cycle(wanted)]
    fn find_in_member(
        &self,
        member: &Member,
        straight: bool,
        flipped: bool,
        path: &mut Vec<u8>,
    ) -> Result<bool, MemoryOut>
        ensures { IfOk result (λ found. IsPathFound path.old.items path.new.items found (first_wanted straight flipped (map (under member.now.flip (named member.now.name)) (type_leaves (type_at (types_of self.now) member.now.ty.number))))) }
    {
        let before = path.len();
        put_field(path, &member.name)?;
        let found = if member.flip {
            self.find_leaf(member.ty, flipped, straight, path)?
        } else {
            self.find_leaf(member.ty, straight, flipped, path)?
        };
        Ok(kept(path, before, found))
    }

    /// The same for what a partial connect pairs.
    #[cycle(partial)]
    fn find_partial_leaf(
        &self,
        a: TypeId,
        b: TypeId,
        straight: bool,
        flipped: bool,
        path: &mut Vec<u8>,
    ) -> Result<bool, MemoryOut>
        ensures { IfOk result (λ found. IsPathFound path.old.items path.new.items found (first_wanted straight flipped (left_leaves (type_at (types_of self.now) a.number) (type_at (types_of self.now) b.number)))) }
    {
        match (self.kind(a), self.kind(b)) {
            (Kind::Bundle, Kind::Bundle) => {
                Ok(self.find_in_partial_bundle(a, b, straight, flipped, path)?)
            }
            (Kind::Vector(s, n), Kind::Vector(t, m)) => {
                if n.min(m) == 0 {
                    return Ok(false);
                }
                let before = path.len();
                put_first_element(path)?;
                let found = self.find_partial_leaf(s, t, straight, flipped, path)?;
                Ok(kept(path, before, found))
            }
            (Kind::Bundle | Kind::Vector(_, _), _) | (_, Kind::Bundle | Kind::Vector(_, _)) => {
                Ok(false)
            }
            _ => Ok(straight),
        }
    }

    #[cycle(partial)]
    fn find_in_partial_bundle(
        &self,
        a: TypeId,
        b: TypeId,
        straight: bool,
        flipped: bool,
        path: &mut Vec<u8>,
    ) -> Result<bool, MemoryOut>
        ensures { IfOk result (λ found. IsPathFound path.old.items path.new.items found (first_wanted straight flipped (left_field_leaves (member_fields (types_of self.now) (members_at self.now a.number)) (type_at (types_of self.now) b.number)))) }
    {
        for member in self.members(a) {
            if self.find_in_partial_member(member, b, straight, flipped, path)? {
                return Ok(true);
            }
        }
        Ok(false)
    }

    #[cycle(partial)]
    fn find_in_partial_member(
        &self,
        member: &Member,
        b: TypeId,
        straight: bool,
        flipped: bool,
        path: &mut Vec<u8>,
    ) -> Result<bool, MemoryOut>
        ensures { IfOk result (λ found. IsPathFound path.old.items path.new.items found (first_wanted straight flipped (left_leaves_under member.now.flip member.now.name (type_at (types_of self.now) member.now.ty.number) (type_at (types_of self.now) b.number)))) }
    {
        let Some(other) = self.field(b, &member.name) else {
            return Ok(false);
        };
        let before = path.len();
        put_field(path, &member.name)?;
        let found = if member.flip {
            self.find_partial_leaf(member.ty, other.ty, flipped, straight, path)?
        } else {
            self.find_partial_leaf(member.ty, other.ty, straight, flipped, path)?
        };
        Ok(kept(path, before, found))
    }
}

/// Goes back to a length where nothing was found.
fn kept(path: &mut Vec<u8>, before: usize, found: bool) -> bool
    ensures same { result ≡ found }
    ensures path { path.new.items ≡ path_kept found before path.old.items }
{
    if !found {
        path.truncate(before);
    }
    found
}

/// The step to the first element of a vector.
fn put_first_element(path: &mut Vec<u8>) -> Result<(), MemoryOut>
    ensures { OnOk result (path.new.items ≡ path.old.items ++ step_text (element 0)) }
{
    path.extend_from_slice(b"[0]")?;
    Ok(())
}

/// The step to a field.
fn put_field(path: &mut Vec<u8>, name: &Name) -> Result<(), MemoryOut>
    ensures { OnOk result (path.new.items ≡ path.old.items ++ step_text (named name.now)) }
{
    path.push(b'.')?;
    path.extend_from_slice(name.as_bytes())?;
    Ok(())
}

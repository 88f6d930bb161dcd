//! The orientation of the first leaf of a type, and of the first pair of a partial connect (FIRRTL
//! spec, "Flow", "Partial Connects").

ghost use Rattle.std.specs.Prelude.{◌≡◌, map, option_map};
ghost use Rattle.fir_meaning.specs.ConnectPairs.{partial_pairs};
ghost use Rattle.fir_meaning.specs.LeafPaths.{named};
ghost use Rattle.fir_meaning.specs.MemoryTypes.{first_one};
ghost use Rattle.fir_meaning.specs.TypeLeaves.{field_leaves, type_leaves, under};
ghost use Rattle.fir_type_table.specs.working.First.{flip_of_first};
ghost use Rattle.fir_type_table.specs.working.Lefts.{left_field_leaves, left_leaves_under};
ghost use Rattle.fir_type_table.specs.working.Tables.{member_fields, members_at, type_at, types_of};

use crate::entry::Member;
use crate::kind::{Kind, TypeId};
use crate::table::TypeTable;

impl TypeTable {
    /// The orientation of the first leaf of a type.
    #[cycle(first)]
    pub fn first_flip(&self, id: TypeId) -> Option<bool>
        ensures { result ≡ option_map (λ l. l.flip) (first_one (type_leaves (type_at (types_of self.now) id.number))) }
    {
        match self.kind(id) {
            Kind::Bundle => self.first_flip_in_bundle(id),
            Kind::Vector(element, length) => {
                if length == 0 {
                    return None;
                }
                self.first_flip(element)
            }
            _ => Some(false),
        }
    }

    #[cycle(first)]
    fn first_flip_in_bundle(&self, id: TypeId) -> Option<bool>
        ensures { result ≡ flip_of_first (field_leaves (member_fields (types_of self.now) (members_at self.now id.number))) }
    {
        for member in self.members(id) {
            if let Some(flip) = self.first_flip_in_member(member) {
                return Some(flip);
            }
        }
        None
    }

    /// Below a flipped field straight is flipped.
    #[cycle(first)]
    fn first_flip_in_member(&self, member: &Member) -> Option<bool>
        ensures { result ≡ flip_of_first (map (under member.now.flip (named member.now.name)) (type_leaves (type_at (types_of self.now) member.now.ty.number))) }
    {
        let flip = self.first_flip(member.ty)?;
        Some(flip != member.flip)
    }

    /// The orientation of the first pair of a partial connect.
    #[cycle(first_pair)]
    pub fn first_pair_flip(&self, a: TypeId, b: TypeId) -> Option<bool>
        ensures { result ≡ option_map (λ p. p.left.flip) (first_one (partial_pairs (type_at (types_of self.now) a.number) (type_at (types_of self.now) b.number))) }
    {
        match (self.kind(a), self.kind(b)) {
            (Kind::Bundle, Kind::Bundle) => self.first_pair_flip_in_bundle(a, b),
            (Kind::Vector(s, n), Kind::Vector(t, m)) => {
                if n.min(m) == 0 {
                    return None;
                }
                self.first_pair_flip(s, t)
            }
            (Kind::Bundle | Kind::Vector(_, _), _) | (_, Kind::Bundle | Kind::Vector(_, _)) => None,
            _ => Some(false),
        }
    }

    #[cycle(first_pair)]
    fn first_pair_flip_in_bundle(&self, a: TypeId, b: TypeId) -> Option<bool>
        ensures { result ≡ flip_of_first (left_field_leaves (member_fields (types_of self.now) (members_at self.now a.number)) (type_at (types_of self.now) b.number)) }
    {
        for member in self.members(a) {
            if let Some(flip) = self.first_pair_flip_in_member(member, b) {
                return Some(flip);
            }
        }
        None
    }

    #[cycle(first_pair)]
    fn first_pair_flip_in_member(&self, member: &Member, b: TypeId) -> Option<bool>
        ensures { result ≡ flip_of_first (left_leaves_under member.now.flip member.now.name (type_at (types_of self.now) member.now.ty.number) (type_at (types_of self.now) b.number)) }
    {
        let other = self.field(b, &member.name)?;
        let flip = self.first_pair_flip(member.ty, other.ty)?;
        Some(flip != member.flip)
    }
}

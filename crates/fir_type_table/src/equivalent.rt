//! Types that are equivalent, and those that a connect may join (FIRRTL spec, "Type
//! Equivalence", "Connects").

ghost use Rattle.std.specs.Prelude.{◌≡◌, []};
ghost use Rattle.fir_meaning.specs.Equivalence.{alike, fields_alike, is_connectable, is_equivalent};
ghost use Rattle.fir_type_table.specs.working.Tables.{made_of, member_fields, members_at, type_at, types_of};
ghost use Rattle.fir_type_table.specs.working.Meetings.{same_member, scalar_test};

use crate::entry::Member;
use crate::kind::{Kind, TypeId};
use crate::table::TypeTable;

impl TypeTable {
    /// Whether two types are equivalent, as the arms of a mux.
    pub fn are_equivalent(&self, a: TypeId, b: TypeId) -> bool
        ensures { result ≡ is_equivalent (type_at (types_of self.now) a.number) (type_at (types_of self.now) b.number) }
    {
        self.are_alike(a, b, false)
    }

    /// Whether a connect may join them.
    pub fn fit(&self, a: TypeId, b: TypeId) -> bool
        ensures { result ≡ is_connectable (type_at (types_of self.now) a.number) (type_at (types_of self.now) b.number) }
    {
        self.are_alike(a, b, true)
    }

    /// Both at once: in a connect a Reset fits more.
    #[cycle(alike)]
    fn are_alike(&self, a: TypeId, b: TypeId, in_connect: bool) -> bool
        ensures { result ≡ alike (scalar_test in_connect) (type_at (types_of self.now) a.number) (type_at (types_of self.now) b.number) }
    {
        match (self.kind(a), self.kind(b)) {
            (Kind::Bundle, Kind::Bundle) => self.are_bundles_alike(a, b, in_connect),
            (Kind::Vector(s, n), Kind::Vector(t, m)) => n == m && self.are_alike(s, t, in_connect),
            (s, t) => are_scalars_alike(s, t, in_connect),
        }
    }

    #[cycle(alike)]
    fn are_bundles_alike(&self, a: TypeId, b: TypeId, in_connect: bool) -> bool
        ensures { result ≡ fields_alike (scalar_test in_connect) (member_fields (types_of self.now) (members_at self.now a.number)) (member_fields (types_of self.now) (members_at self.now b.number)) }
    {
        let fs = self.members(a);
        let gs = self.members(b);
        if fs.len() != gs.len() {
            return false;
        }
        for i in 0..fs.len() {
            if !self.are_members_alike(&fs[i], &gs[i], in_connect) {
                return false;
            }
        }
        true
    }

    #[cycle(alike)]
    fn are_members_alike(&self, f: &Member, g: &Member, in_connect: bool) -> bool
        ensures { result ≡ same_member (types_of self.now) (scalar_test in_connect) f.now g.now }
    {
        f.flip == g.flip && f.name == g.name && self.are_alike(f.ty, g.ty, in_connect)
    }
}

/// The same for ground types; no bundle or vector is alike.
pub(crate) fn are_scalars_alike(s: Kind, t: Kind, in_connect: bool) -> bool
    ensures { result ≡ scalar_test in_connect (made_of [] s []) (made_of [] t []) }
{
    match (s, t) {
        (Kind::UInt(_), Kind::UInt(_)) | (Kind::SInt(_), Kind::SInt(_)) => true,
        (Kind::Clock, Kind::Clock) | (Kind::Reset, Kind::Reset) => true,
        (Kind::AsyncReset, Kind::AsyncReset) => true,
        (Kind::Reset, Kind::UInt(_) | Kind::AsyncReset) => in_connect,
        (Kind::UInt(_) | Kind::AsyncReset, Kind::Reset) => in_connect,
        _ => false,
    }
}

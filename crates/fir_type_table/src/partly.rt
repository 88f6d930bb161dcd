//! Types that a partial connect may join (FIRRTL spec, "Partial Connects").

ghost use Rattle.std.specs.Prelude.{◌≡◌};
ghost use Rattle.fir_meaning.specs.Equivalence.{is_partly_connectable};
ghost use Rattle.fir_type_table.specs.working.Tables.{member_fields, members_at, type_at, types_of};
ghost use Rattle.fir_type_table.specs.working.Meetings.{field_partly_met, fields_partly_met};

use crate::entry::Member;
use crate::equivalent::are_scalars_alike;
use crate::kind::{Kind, TypeId};
use crate::table::TypeTable;

impl TypeTable {
    /// Whether a partial connect may join two types.
    #[cycle(partly)]
    pub fn fit_partly(&self, a: TypeId, b: TypeId) -> bool
        ensures { result ≡ is_partly_connectable (type_at (types_of self.now) a.number) (type_at (types_of self.now) b.number) }
    {
        match (self.kind(a), self.kind(b)) {
            (Kind::Bundle, Kind::Bundle) => self.fields_fit_partly(a, b),
            (Kind::Vector(s, _), Kind::Vector(t, _)) => self.fit_partly(s, t),
            (s, t) => are_scalars_alike(s, t, true),
        }
    }

    #[cycle(partly)]
    fn fields_fit_partly(&self, a: TypeId, b: TypeId) -> bool
        ensures { result ≡ fields_partly_met (member_fields (types_of self.now) (members_at self.now a.number)) (type_at (types_of self.now) b.number) }
    {
        for member in self.members(a) {
            if !self.field_fits_partly(member, b) {
                return false;
            }
        }
        true
    }

    /// Whether a field fits the one of its name, where there is one.
    #[cycle(partly)]
    fn field_fits_partly(&self, member: &Member, b: TypeId) -> bool
        ensures { result ≡ field_partly_met member.now.flip member.now.name (type_at (types_of self.now) member.now.ty.number) (type_at (types_of self.now) b.number) }
    {
        match self.field(b, &member.name) {
            None => true,
            Some(found) => member.flip == found.flip && self.fit_partly(member.ty, found.ty),
        }
    }
}

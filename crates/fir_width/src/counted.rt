//! Two ways to count the leaves of a type.

ghost use Rattle.std.specs.Prelude.{◌≡◌};
ghost use Rattle.fir_type_table.specs.working.Saturated.{saturated};
ghost use Rattle.fir_type_table.specs.working.Tables.{type_at, types_of};
ghost use Rattle.fir_width.specs.working.CountedLeaves.{before_found, before_member, count_of};

use fir_type_table::{FieldFound, Member, TypeId, TypeTable};

/// Which leaves count.
#[derive(Clone, Copy)]
pub enum Counted {
    Each,
    /// All elements of a vector share their leaves.
    Shared,
}

impl Counted {
    /// How many leaves a type has; at most 2^64 - 1.
    pub fn leaves(self, table: &TypeTable, id: TypeId) -> u64
        ensures { result ≡ saturated (count_of self (type_at (types_of table.now) id.number)) }
    {
        match self {
            Counted::Each => table.leaves(id),
            Counted::Shared => table.shared_leaves(id),
        }
    }

    /// How many stand before a field.
    pub fn before(self, field: &FieldFound) -> u64
        ensures { result ≡ before_found self field.now }
    {
        match self {
            Counted::Each => field.offset,
            Counted::Shared => field.shared_offset,
        }
    }

    /// The same of a member.
    pub fn before_member(self, member: &Member) -> u64
        ensures { result ≡ before_member self member.now }
    {
        match self {
            Counted::Each => member.offset,
            Counted::Shared => member.shared_offset,
        }
    }
}

//! The member of a bundle in which a leaf lies.

ghost use Rattle.std.specs.Prelude.{◌≡◌, ◌≤◌, ◌<◌, ℕ, length, IfSome, Some, slice_get};
ghost use Rattle.std.specs.List.Sorted.{IsNonDecreasingBy};
ghost use Rattle.fir_width.specs.working.CountedLeaves.{before_member};
ghost use Rattle.fir_width.specs.working.FieldsAt.{IsLastUpTo};

use crate::counted::Counted;
use fir_type_table::Member;

/// Of members whose offsets rise the last one before which at most so many leaves stand.
pub fn member_at(members: &[Member], counted: Counted, leaf: u64) -> Option<&Member>
    ensures { IsNonDecreasingBy (before_member counted) members.now → IfSome result (λ m. IsLastUpTo counted members.now leaf m.now) }
{
    let behind = members.partition_point(|member| counted.before_member(member) <= leaf);
    members.get(behind.checked_sub(1)?)
}

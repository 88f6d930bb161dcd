//! The fields of a bundle that have leaves, each by the number of its first leaf. So a walk over them passes the
//! fields that have none at no cost, however many there are.

ghost use Rattle.std.specs.Prelude.{◌≡◌, ◌<◌, ◌-◌, ◌^◌, IfSome};
ghost use Rattle.fir_type_table.specs.working.Tables.{members_at, types_of};
ghost use Rattle.fir_width.specs.working.FieldsAt.{HasFieldAt, IsBundleAt, IsFieldAt};

use crate::counted::Counted;
use crate::member_at::member_at;
use fir_type_table::{FieldFound, TypeId, TypeTable};

/// The field of a bundle whose first leaf has the number.
pub fn field_at(table: &TypeTable, id: TypeId, counted: Counted, leaf: u64) -> FieldFound
    requires bundle { IsBundleAt table.now id.number }
    requires small { leaf < 2 ^ 64 - 1 }
    requires there { HasFieldAt counted (types_of table.now) (members_at table.now id.number) leaf }
    ensures field { IsFieldAt counted (types_of table.now) (members_at table.now id.number) leaf result }
    ensures below { result.ty.number < id.number }
{
    match sought_field(table, id, counted, leaf) {
        Some(field) => field,
        None => counted_field(table, id, counted, leaf),
    }
}

/// The same by a search over the offsets. The table tells of the first field of a name, so what it tells is
/// looked at: where two fields have one name it may be another.
fn sought_field(table: &TypeTable, id: TypeId, counted: Counted, leaf: u64) -> Option<FieldFound>
    requires bundle { IsBundleAt table.now id.number }
    requires small { leaf < 2 ^ 64 - 1 }
    ensures field { IfSome result (λ f. IsFieldAt counted (types_of table.now) (members_at table.now id.number) leaf f) }
    ensures below { IfSome result (λ f. f.ty.number < id.number) }
{
    let member = member_at(table.members(id), counted, leaf)?;
    let field = table.field(id, &member.name)?;
    if counted.before(&field) != leaf || counted.leaves(table, field.ty) == 0 {
        return None;
    }
    Some(field)
}

/// The same by counting, member by member, for bundles in which two fields have one name.
fn counted_field(table: &TypeTable, id: TypeId, counted: Counted, leaf: u64) -> FieldFound
    requires small { leaf < 2 ^ 64 - 1 }
    requires there { HasFieldAt counted (types_of table.now) (members_at table.now id.number) leaf }
    ensures field { IsFieldAt counted (types_of table.now) (members_at table.now id.number) leaf result }
    ensures below { result.ty.number < id.number }
{
    let mut offset = 0u64;
    let mut shared_offset = 0u64;
    for member in table.members(id) {
        let field = FieldFound {
            flip: member.flip,
            ty: member.ty,
            offset,
            shared_offset,
        };
        let before = counted.before(&field);
        let count = counted.leaves(table, field.ty);
        if before == leaf && count > 0 {
            return field;
        }
        offset = offset.saturating_add(table.leaves(field.ty));
        shared_offset = shared_offset.saturating_add(table.shared_leaves(field.ty));
    }
    unreachable!()
}

//! The field of a bundle in which a leaf lies (FIRRTL spec, "Types"). It is found by a search over the offsets of the
//! fields, so a walk from leaf to leaf passes the fields that have none at no cost, however many there are.

ghost use Rattle.std.specs.Prelude.{◌<◌, IfSome, option_map};
ghost use Rattle.fir_type_table.specs.working.Tables.{members_at, types_of};
ghost use Rattle.fir_width.specs.working.FieldsAt.{IsBundleAt};
ghost use Rattle.fir_leaf_text.specs.working.FieldsOfLeaves.{IsFieldOfLeaf, LiesIn};

use fir_base::Name;
use fir_type_table::{TypeId, TypeTable};

/// The name and the type of the field in which the leaf of that number lies, and the number of the leaf there.
pub fn field_of_leaf(table: &TypeTable, id: TypeId, leaf: u64) -> Option<(&Name, TypeId, u64)>
    requires bundle { IsBundleAt table.now id.number }
    requires small { leaf < u64.MAX }
    ensures field { IsFieldOfLeaf (types_of table.now) (members_at table.now id.number) leaf (option_map (λ f. (f.0.now, f.1, f.2)) result) }
    ensures below { IfSome result (λ f. f.1.number < id.number) }
{
    if leaf >= table.leaves(id) {
        return None;
    }
    match sought_field(table, id, leaf) {
        Some(field) => Some(field),
        None => counted_field(table, id, leaf),
    }
}

/// The same by a search over the offsets. The table tells of the first field of a name, so what it tells is looked at:
/// where two fields have one name it may be another.
fn sought_field(table: &TypeTable, id: TypeId, leaf: u64) -> Option<(&Name, TypeId, u64)>
    requires bundle { IsBundleAt table.now id.number }
    requires small { leaf < u64.MAX }
    ensures field { IfSome result (λ f. LiesIn (types_of table.now) (members_at table.now id.number) leaf f.0.now f.1 f.2) }
    ensures below { IfSome result (λ f. f.1.number < id.number) }
{
    let members = table.members(id);
    let behind = members.partition_point(|member| member.offset <= leaf);
    let member = members.get(behind.checked_sub(1)?)?;
    let field = table.field(id, &member.name)?;
    let inside = leaf.checked_sub(field.offset)?;
    if inside < table.leaves(field.ty) {
        return Some((&member.name, field.ty, inside));
    }
    None
}

/// The same by counting, field by field, for bundles in which two fields have one name.
fn counted_field(table: &TypeTable, id: TypeId, leaf: u64) -> Option<(&Name, TypeId, u64)>
    requires { leaf < u64.MAX }
    ensures field { IsFieldOfLeaf (types_of table.now) (members_at table.now id.number) leaf (option_map (λ f. (f.0.now, f.1, f.2)) result) }
    ensures below { IfSome result (λ f. f.1.number < id.number) }
{
    let mut number = leaf;
    for member in table.members(id) {
        let leaves = table.leaves(member.ty);
        if number < leaves {
            return Some((&member.name, member.ty, number));
        }
        number -= leaves;
    }
    None
}

//! The path of a leaf within its type, told by its number among the leaves of that (FIRRTL spec, "Types").

ghost use Rattle.std.specs.Prelude.{◌<◌, IfOk, OnOk};
ghost use Rattle.fir_type_table.specs.working.Tables.{type_at, types_of};
ghost use Rattle.fir_leaf_text.specs.working.TypePaths.{IsStep, WritesPath};

use crate::bundle_field::field_of_leaf;
use crate::leaf_step::{put_element, put_field};
use fir_base::MemoryOut;
use fir_type_table::{Kind, TypeId, TypeTable};

/// Appends the steps to the leaf of that number of a type; of a leaf that is not there it says nothing.
pub fn put_leaf_path(
    table: &TypeTable,
    id: TypeId,
    leaf: u64,
    path: &mut Vec<u8>,
) -> Result<(), MemoryOut>
    requires { leaf < u64.MAX }
    ensures { OnOk result (WritesPath (type_at (types_of table.now) id.number) leaf path.old.items path.new.items) }
{
    let mut part = id;
    let mut number = leaf;
    while let Some((inner, inside)) = put_step(table, part, number, path)? {
        part = inner;
        number = inside;
    }
    Ok(())
}

/// Appends the first of these steps, and tells in which part of the type the leaf lies, and its number there. A
/// ground type is its own leaf.
fn put_step(
    table: &TypeTable,
    id: TypeId,
    leaf: u64,
    path: &mut Vec<u8>,
) -> Result<Option<(TypeId, u64)>, MemoryOut>
    requires { leaf < u64.MAX }
    ensures { IfOk result (λ part. IsStep (types_of table.now) id leaf path.old.items path.new.items part) }
{
    match table.kind(id) {
        Kind::Bundle => {
            let Some((name, ty, inside)) = field_of_leaf(table, id, leaf) else {
                return Ok(None);
            };
            put_field(path, name)?;
            Ok(Some((ty, inside)))
        }
        Kind::Vector(element, _) => {
            let leaves = table.leaves(element);
            if leaves == 0 {
                return Ok(None);
            }
            put_element(path, u128::from(leaf / leaves))?;
            Ok(Some((element, leaf % leaves)))
        }
        _ => Ok(None),
    }
}

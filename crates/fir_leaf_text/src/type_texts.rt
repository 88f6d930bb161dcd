//! The texts of the leaves of a type, in one walk down it (FIRRTL spec, "Types", "References").

ghost use Rattle.std.specs.Prelude.{◌≡◌, ◌++◌, [], ◌∷◌, IfOk, OnOk};
ghost use Rattle.fir_ast.specs.Types.{vector};
ghost use Rattle.fir_type_table.specs.working.Tables.{members_at, type_at, types_of};
ghost use Rattle.fir_width.specs.working.FieldsAt.{IsBundleAt};
ghost use Rattle.fir_leaf_text.specs.working.FieldsOfLeaves.{IsBehind};
ghost use Rattle.fir_leaf_text.specs.working.TypePaths.{paths_of_members, texts_behind, type_paths};

use crate::bundle_field::field_of_leaf;
use crate::leaf_step::{put_element, put_field};
use fir_base::{MemoryOut, Name};
use fir_type_table::{Kind, TypeId, TypeTable};
use std::alloc::Global;

/// Pushes the text of each leaf of the type, in their order, each behind the path. A type without leaves is passed
/// at once.
#[cycle(texts)]
pub fn push_type_texts(
    alloc: Global,
    table: &TypeTable,
    id: TypeId,
    path: &mut Vec<u8>,
    texts: &mut Vec<Name>,
) -> Result<(), MemoryOut>
    ensures path { OnOk result (path.new.items ≡ path.old.items) }
    ensures texts { OnOk result (texts.new.items ≡ texts.old.items ++ texts_behind path.old.items (type_paths (type_at (types_of table.now) id.number))) }
{
    if table.leaves(id) == 0 {
        return Ok(());
    }
    match table.kind(id) {
        Kind::Bundle => push_field_texts(alloc, table, id, path, texts),
        Kind::Vector(element, length) => {
            push_element_texts(alloc, table, element, length, path, texts)
        }
        _ => push_text(alloc, path, texts),
    }
}

/// Those of the fields of a bundle. Fields without leaves are stepped over, however many there are.
#[cycle(texts)]
fn push_field_texts(
    alloc: Global,
    table: &TypeTable,
    id: TypeId,
    path: &mut Vec<u8>,
    texts: &mut Vec<Name>,
) -> Result<(), MemoryOut>
    requires { IsBundleAt table.now id.number }
    ensures path { OnOk result (path.new.items ≡ path.old.items) }
    ensures texts { OnOk result (texts.new.items ≡ texts.old.items ++ texts_behind path.old.items (paths_of_members (types_of table.now) (members_at table.now id.number))) }
{
    let before = path.len();
    let mut leaf = 0u64;
    while let Some((name, ty, _)) = field_of_leaf(table, id, leaf) {
        put_field(path, name)?;
        push_type_texts(alloc, table, ty, path, texts)?;
        path.truncate(before);
        leaf = behind(leaf, table.leaves(ty))?;
    }
    Ok(())
}

/// Those of the elements of a vector.
#[cycle(texts)]
fn push_element_texts(
    alloc: Global,
    table: &TypeTable,
    element: TypeId,
    length: u128,
    path: &mut Vec<u8>,
    texts: &mut Vec<Name>,
) -> Result<(), MemoryOut>
    ensures path { OnOk result (path.new.items ≡ path.old.items) }
    ensures texts { OnOk result (texts.new.items ≡ texts.old.items ++ texts_behind path.old.items (type_paths (vector (type_at (types_of table.now) element.number) length))) }
{
    let before = path.len();
    for index in 0..length {
        put_element(path, index)?;
        push_type_texts(alloc, table, element, path, texts)?;
        path.truncate(before);
    }
    Ok(())
}

/// The path is the text of a leaf.
pub fn push_text(alloc: Global, path: &[u8], texts: &mut Vec<Name>) -> Result<(), MemoryOut>
    ensures { OnOk result (texts.new.items ≡ texts.old.items ++ path.now ∷ []) }
{
    texts.push(Name::new(alloc, path)?)?;
    Ok(())
}

/// The number behind so many more, which is not told by a count that stands still at 2^64 - 1.
fn behind(number: u64, count: u64) -> Result<u64, MemoryOut>
    ensures { IfOk result (IsBehind number count) }
{
    match number.checked_add(count) {
        Some(next) if next < u64::MAX => Ok(next),
        _ => Err(MemoryOut),
    }
}

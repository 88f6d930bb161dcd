//! A walk down a type, which puts its leaves behind others. A running number tells where the width of each
//! stands. Elements of a vector are alike, so one of them is walked, and its leaves are put again for the others.

ghost use Rattle.std.specs.Prelude.{◌≡◌, ℕ, ◌+◌, ◌-◌, ◌<◌, ◌≤◌, [], ◌∷◌, ◌++◌, false, drop, length as long, IfOk, OnOk, Option};
ghost use Rattle.fir_ast.specs.Types.{bundle, vector};
ghost use Rattle.fir_ast.specs.working.Views.{circuit_of};
ghost use Rattle.fir_meaning.specs.ExpressionTypes.{number_data_type};
ghost use Rattle.fir_meaning.specs.TypeLeaves.{turned};
ghost use Rattle.fir_type_table.specs.working.Saturated.{saturated};
ghost use Rattle.fir_type_table.specs.working.Tables.{member_fields, members_at, type_at, types_of};
ghost use Rattle.fir_types.specs.working.Seen.{found_type};
ghost use Rattle.fir_meaning.specs.HeldTypes.{repeated};
ghost use Rattle.fir_width.specs.working.FieldsAt.{IsBundleAt};
ghost use Rattle.fir_leaf_table.specs.working.PushedTypeLeaves.{Pushes};

use crate::type_leaves::TypeLeaf;
use fir_ast::LeafId;
use fir_base::MemoryOut;
use fir_bits::NumTy;
use fir_leaf_circuit::LeafType;
use fir_type_table::{Kind, TypeId, TypeTable};
use fir_types::Found;
use fir_width::{Counted, Fitted, Widths, field_at};

/// What a Reset or an AsyncReset holds.
const BIT: LeafType = LeafType::Number(NumTy {
    signed: false,
    width: 1,
});

/// Puts the leaves of what is found behind those that are there. Their widths stand under the numbers from
/// `first` on, where all elements of a vector share theirs.
pub fn push_found(
    fitted: &Fitted,
    table: &TypeTable,
    found: Found,
    first: usize,
    leaves: &mut Vec<TypeLeaf>,
) -> Result<(), MemoryOut>
    ensures { OnOk result (Pushes (circuit_of fitted.now) false (found_type (types_of table.now) found) first leaves.old.items leaves.new.items) }
{
    match found {
        Found::Number(signed, _) => push_number(fitted, signed, false, first, leaves),
        Found::AsyncReset => push_leaf(false, BIT, leaves),
        Found::Type(id, _) => push_type(fitted, table, id, false, first, leaves),
    }
}

/// The leaf of a UInt or an SInt, whose width stands under the number.
fn push_number(
    fitted: &Fitted,
    signed: bool,
    flip: bool,
    number: usize,
    leaves: &mut Vec<TypeLeaf>,
) -> Result<(), MemoryOut>
    ensures { OnOk result ((width : Option ℕ) → Pushes (circuit_of fitted.now) flip (number_data_type signed width) number leaves.old.items leaves.new.items) }
{
    let width = Widths::of(fitted, LeafId::new(number));
    push_leaf(flip, LeafType::Number(NumTy { signed, width }), leaves)
}

fn push_leaf(flip: bool, holds: LeafType, leaves: &mut Vec<TypeLeaf>) -> Result<(), MemoryOut>
    ensures { OnOk result (leaves.new.items ≡ leaves.old.items ++ record { flip = flip; holds = holds } ∷ []) }
{
    leaves.push(TypeLeaf { flip, holds })?;
    Ok(())
}

/// The leaves of a type of the table, below a field that is flipped or not. A type without leaves is passed
/// at once.
#[cycle(leaves)]
fn push_type(
    fitted: &Fitted,
    table: &TypeTable,
    id: TypeId,
    flip: bool,
    first: usize,
    leaves: &mut Vec<TypeLeaf>,
) -> Result<(), MemoryOut>
    ensures { OnOk result (Pushes (circuit_of fitted.now) flip (type_at (types_of table.now) id.number) first leaves.old.items leaves.new.items) }
{
    if table.leaves(id) == 0 {
        return Ok(());
    }
    match table.kind(id) {
        Kind::UInt(_) => push_number(fitted, false, flip, first, leaves),
        Kind::SInt(_) => push_number(fitted, true, flip, first, leaves),
        Kind::Clock => push_leaf(flip, LeafType::Clock, leaves),
        Kind::Reset => push_leaf(flip, BIT, leaves),
        Kind::AsyncReset => push_leaf(flip, BIT, leaves),
        Kind::Bundle => push_members(fitted, table, id, flip, first, leaves),
        Kind::Vector(element, length) => {
            push_elements(fitted, table, element, length, flip, first, leaves)
        }
    }
}

/// Those of the fields of a bundle. Fields without leaves are stepped over, however many there are.
#[cycle(leaves)]
fn push_members(
    fitted: &Fitted,
    table: &TypeTable,
    id: TypeId,
    flip: bool,
    first: usize,
    leaves: &mut Vec<TypeLeaf>,
) -> Result<(), MemoryOut>
    requires { IsBundleAt table.now id.number }
    ensures { OnOk result (Pushes (circuit_of fitted.now) flip (bundle (member_fields (types_of table.now) (members_at table.now id.number))) first leaves.old.items leaves.new.items) }
{
    let count = table.leaves(id);
    // At 2^64 - 1 the number of leaves stands still.
    if count == u64::MAX {
        return Err(MemoryOut);
    }
    let mut leaf = 0u64;
    while leaf < count {
        let field = field_at(table, id, Counted::Each, leaf);
        push_type(
            fitted,
            table,
            field.ty,
            turned(flip, field.flip),
            behind(first, field.shared_offset)?,
            leaves,
        )?;
        leaf += table.leaves(field.ty);
    }
    Ok(())
}

/// Those of the elements of a vector, of which there is one at least. All are like the first.
#[cycle(leaves)]
fn push_elements(
    fitted: &Fitted,
    table: &TypeTable,
    element: TypeId,
    length: u128,
    flip: bool,
    first: usize,
    leaves: &mut Vec<TypeLeaf>,
) -> Result<(), MemoryOut>
    requires { 0 < length }
    ensures { OnOk result (Pushes (circuit_of fitted.now) flip (vector (type_at (types_of table.now) element.number) length) first leaves.old.items leaves.new.items) }
{
    let start = leaves.len();
    push_type(fitted, table, element, flip, first, leaves)?;
    repeat(leaves, start, length)
}

/// Puts the leaves from `start` on, those of the first of so many elements, again for each other element.
fn repeat(leaves: &mut Vec<TypeLeaf>, start: usize, count: u128) -> Result<(), MemoryOut>
    requires { start ≤ long leaves.old.items }
    ensures { OnOk result (leaves.new.items ≡ leaves.old.items ++ repeated (count - 1) (drop start leaves.old.items)) }
{
    let end = leaves.len();
    for _ in 1..count {
        leaves.extend_from_within(start..end)?;
    }
    Ok(())
}

/// The orientation below a field that is flipped or not.
fn turned(outer: bool, flip: bool) -> bool
    ensures { result ≡ turned outer flip }
{
    outer != flip
}

/// The number behind so many more, which is not told by a count that stands still at 2^64 - 1.
fn behind(number: usize, count: u64) -> Result<usize, MemoryOut>
    ensures { IfOk result (λ next. (exact : ℕ) → count ≡ saturated exact → next ≡ number + exact) }
{
    if count == u64::MAX {
        return Err(MemoryOut);
    }
    number.checked_add(count as usize).ok_or(MemoryOut)
}

//! The type of an operation (FIRRTL spec, "Primitive Operations").

ghost use Rattle.std.specs.Prelude.{◌≡◌, List, IfOk, map, option_map};
ghost use Rattle.fir_bits.specs.Forms.{form_of, takes};
ghost use Rattle.fir_ast.specs.Types.{DataType};
ghost use Rattle.fir_meaning.specs.OperationTypes.{is_conversion, type_of_sign, operand_kind, operand_kinds, result_of, type_of_operation};
ghost use Rattle.fir_type_table.specs.working.Tables.{types_of};
ghost use Rattle.fir_types.specs.working.Judged.{Says};
ghost use Rattle.fir_types.specs.working.Seen.{found_type};
ghost use Rattle.fir_types.specs.working.Sorts.{sort_of};

use crate::faults::wrong_kinds;
use fir_ast::{FirFault, Place};
use fir_base::{MemoryOut, Refused};
use fir_bits::{NumTy, PrimOp, has_kinds};
use fir_type_table::TypeTable;
use fir_types::found::sort;
use fir_types::{Found, Sort};
use std::alloc::Global;

/// The type of the result, without a width, where the operands and integers are of the operation's kinds.
pub fn operation_type(
    alloc: Global,
    table: &TypeTable,
    place: Place,
    op: PrimOp,
    operands: &[Found],
    integers: &[u128],
) -> Result<Found, Refused<FirFault>>
    ensures { Says (found_type (types_of table.now)) (type_of_operation place op integers.now (map (found_type (types_of table.now)) operands.now)) result }
{
    let kinds = operand_kinds(alloc, table, is_conversion(op), operands)?;
    match kinds {
        Some(kinds) if takes(op, &kinds, integers) => Ok(result_of(op, &kinds)),
        _ => Err(wrong_kinds(alloc, table, place, operands)),
    }
}

fn is_conversion(op: PrimOp) -> bool
    ensures { result ≡ is_conversion op }
{
    matches!(op, PrimOp::AsUInt | PrimOp::AsSInt | PrimOp::AsAsyncReset)
}

/// The signedness of each operand, where all may stand there.
fn operand_kinds(
    alloc: Global,
    table: &TypeTable,
    resets: bool,
    operands: &[Found],
) -> Result<Option<Vec<NumTy>>, MemoryOut>
    ensures { IfOk result (λ kinds. operand_kinds resets (map (found_type (types_of table.now)) operands.now) ≡ option_map (λ v. v.items) kinds) }
{
    let mut kinds = Vec::new(alloc);
    for found in operands {
        match operand_kind(resets, sort(table, *found)) {
            Some(kind) => kinds.push(kind)?,
            None => return Ok(None),
        }
    }
    Ok(Some(kinds))
}

fn operand_kind(resets: bool, sort: Sort) -> Option<NumTy>
    ensures { (t : DataType) → sort ≡ sort_of t → result ≡ operand_kind resets t }
{
    match sort {
        Sort::UInt => Some(type_of_sign(false)),
        Sort::SInt => Some(type_of_sign(true)),
        Sort::Reset | Sort::AsyncReset if resets => Some(type_of_sign(false)),
        _ => None,
    }
}

fn type_of_sign(signed: bool) -> NumTy
    ensures { result ≡ type_of_sign signed }
{
    NumTy { signed, width: 0 }
}

fn takes(op: PrimOp, kinds: &[NumTy], integers: &[u128]) -> bool
    ensures { result ≡ takes (form_of op) kinds.now integers.now }
{
    op.form().has_counts(kinds.len(), integers.len()) && has_kinds(op.form(), kinds)
}

/// The result of operands of these kinds.
fn result_of(op: PrimOp, kinds: &[NumTy]) -> Found
    ensures { (ts : List DataType) → found_type ts result ≡ result_of op kinds.now }
{
    if let PrimOp::AsAsyncReset = op {
        return Found::AsyncReset;
    }
    let signed = match kinds.first() {
        Some(first) => first.signed,
        None => false,
    };
    Found::Number(op.is_signed(signed), None)
}

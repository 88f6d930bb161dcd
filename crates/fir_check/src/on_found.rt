//! Forms on what their operands are found to be. What has an operand that is nothing is nothing.

ghost use Rattle.std.specs.Prelude.{◌≡◌, [], ◌∷◌, ◌++◌, IfErr, IfOk, map, option_map};
ghost use Rattle.fir_base.specs.declared.refused.Refused.TheVariants.{Memory};
ghost use Rattle.fir_meaning.specs.Checked.{joined};
ghost use Rattle.fir_meaning.specs.ExpressionTypes.{condition_form, mux_form, operation_form, passive_form, validif_form};
ghost use Rattle.fir_type_table.specs.working.Tables.{types_of};
ghost use Rattle.fir_types.specs.working.Judged.{OnOne, OnThree, OnTwo};
ghost use Rattle.fir_types.specs.working.Seen.{found_type, seen};

use crate::forms::{mux_type, passive_at, unsigned_at, validif_type};
use crate::operations::operation_type;
use fir_ast::{FirFault, Place};
use fir_base::Refused;
use fir_bits::PrimOp;
use fir_type_table::TypeTable;
use fir_types::Found;
use std::alloc::Global;

/// A condition or an index.
pub fn on_unsigned(
    alloc: Global,
    table: &TypeTable,
    place: Place,
    found: Option<Found>,
) -> Result<Option<Found>, Refused<FirFault>>
    ensures { OnOne (found_type (types_of table.now)) (condition_form place) (seen (types_of table.now) found) result }
{
    match found {
        Some(found) => Ok(Some(unsigned_at(alloc, table, place, found)?)),
        None => Ok(None),
    }
}

/// An operand that may have no flips.
pub fn on_passive(
    alloc: Global,
    table: &TypeTable,
    place: Place,
    found: Option<Found>,
) -> Result<Option<Found>, Refused<FirFault>>
    ensures { OnOne (found_type (types_of table.now)) (passive_form place) (seen (types_of table.now) found) result }
{
    match found {
        Some(found) => Ok(Some(passive_at(alloc, table, place, found)?)),
        None => Ok(None),
    }
}

pub fn on_operation(
    alloc: Global,
    table: &TypeTable,
    place: Place,
    op: PrimOp,
    operands: Option<Vec<Found>>,
    integers: &[u128],
) -> Result<Option<Found>, Refused<FirFault>>
    ensures { OnOne (found_type (types_of table.now)) (operation_form place op integers.now) (option_map (λ v. map (found_type (types_of table.now)) v.items) operands) result }
{
    match operands {
        Some(operands) => {
            let found = operation_type(alloc, table, place, op, &operands, integers)?;
            Ok(Some(found))
        }
        None => Ok(None),
    }
}

pub fn on_mux(
    alloc: Global,
    table: &TypeTable,
    place: Place,
    condition: Option<Found>,
    one: Option<Found>,
    other: Option<Found>,
) -> Result<Option<Found>, Refused<FirFault>>
    ensures { OnThree (found_type (types_of table.now)) (mux_form place) (seen (types_of table.now) condition) (seen (types_of table.now) one) (seen (types_of table.now) other) result }
{
    let Some(_) = condition else {
        return Ok(None);
    };
    let Some(one) = one else {
        return Ok(None);
    };
    let Some(other) = other else {
        return Ok(None);
    };
    Ok(Some(mux_type(alloc, table, place, one, other)?))
}

pub fn on_validif(
    alloc: Global,
    table: &TypeTable,
    place: Place,
    condition: Option<Found>,
    value: Option<Found>,
) -> Result<Option<Found>, Refused<FirFault>>
    ensures { OnTwo (found_type (types_of table.now)) (validif_form place) (seen (types_of table.now) condition) (seen (types_of table.now) value) result }
{
    match (condition, value) {
        (Some(_), Some(value)) => Ok(Some(validif_type(alloc, table, place, value)?)),
        _ => Ok(None),
    }
}

/// One more behind others, where all are something.
pub fn with_operand(
    operands: Option<Vec<Found>>,
    found: Option<Found>,
) -> Result<Option<Vec<Found>>, Refused<FirFault>>
    ensures operands { IfOk result (λ all. option_map (λ v. v.items) all ≡ joined (λ vs t. vs ++ t ∷ []) (option_map (λ v. v.items) operands) found) }
    ensures fault { IfErr result (λ e. e ≡ Memory) }
{
    match (operands, found) {
        (Some(mut operands), Some(found)) => {
            operands.push(found)?;
            Ok(Some(operands))
        }
        _ => Ok(None),
    }
}

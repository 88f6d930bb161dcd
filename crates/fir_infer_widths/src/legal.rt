//! E20 to E22: an input of the main module without a width; integers or a literal that may not stand there;
//! a condition of another width than 1 (FIRRTL spec, "Width Inference", "Primitive Operations", "Literals",
//! "Conditionals").

ghost use Rattle.std.specs.Prelude.{◌≡◌, ◌∷◌, IfOk, flat_map};
ghost use Rattle.fir_ast.specs.working.Views.{named_of};
ghost use Rattle.fir_meaning.specs.LegalFaults.{operation_faults, written_literal_faults};
ghost use Rattle.fir_type_table.specs.working.Tables.{types_of};
ghost use Rattle.fir_types.specs.working.Seen.{found_type};
ghost use Rattle.fir_types.specs.working.Walked.{Judges};
ghost use Rattle.fir_meaning.specs.working.AssignedWidths.{assigned};
ghost use Rattle.fir_infer_widths.specs.working.SpotFaults.{condition_at, leaves_of_side, legal_at, unwritten_in};

use crate::first_unwritten::first_unwritten;
use crate::integers::integer;
use crate::leaf_path::leaf_of_name;
use crate::spot::Spot;
use fir_ast::{FirFault, Ident, Literal, Place};
use fir_base::{Direction, MemoryOut, Name, Refused, Seq};
use fir_bits::{PrimOp, holds_number};
use fir_type_table::TypeTable;
use fir_types::Sort;
use fir_types::found::sort;
use fir_width::{Side, width_at};
use std::alloc::Global;

/// All is legal, or the first fault of what is not; the widths stand by their numbers.
pub fn all_legal(
    alloc: Global,
    table: &TypeTable,
    widths: &[u32],
    spots: &[Spot],
) -> Result<(), Refused<FirFault>>
    ensures { Judges (flat_map (legal_at (types_of table.now) (assigned widths.now)) spots.now) result }
{
    for spot in spots {
        at_spot(alloc, table, widths, spot)?;
    }
    Ok(())
}

fn at_spot(
    alloc: Global,
    table: &TypeTable,
    widths: &[u32],
    spot: &Spot,
) -> Result<(), Refused<FirFault>>
    ensures { Judges (legal_at (types_of table.now) (assigned widths.now) spot.now) result }
{
    match spot {
        Spot::Port(direction, ident, side) => {
            port(alloc, table, ident, *direction == Direction::Input, *side)
        }
        Spot::Literal(literal, _) => written_literal(literal),
        Spot::Operation(place, op, integers, operand, _) => {
            operation(alloc, *place, *op, width_at(widths, *operand), integers)
        }
        Spot::Condition(place, side) => condition(table, widths, *place, *side),
        Spot::Declared(_, _) | Spot::Array(_, _) | Spot::Reference(_, _) | Spot::Choice(_, _, _) =>
            Ok(()),
    }
}

/// E20 of the first input leaf of a port that has no width.
fn port(
    alloc: Global,
    table: &TypeTable,
    ident: &Ident,
    inward: bool,
    side: Side,
) -> Result<(), Refused<FirFault>>
    ensures { Judges (unwritten_in (named_of ident.now) inward (leaves_of_side (types_of table.now) side)) result }
{
    let Some(steps) = first_unwritten(alloc, table, side, inward)? else {
        return Ok(());
    };
    let leaf = leaf_of_name(alloc, &ident.name, &steps)?;
    Err(Refused::Fault(FirFault::PortWidth(ident.place, leaf)))
}

/// E21 of a literal whose width is written and does not hold it.
fn written_literal(literal: &Literal) -> Result<(), Refused<FirFault>>
    ensures { Judges (written_literal_faults literal.now literal.now.width) result }
{
    let Some(width) = literal.width else {
        return Ok(());
    };
    let (negative, magnitude) = (literal.negative, literal.magnitude);
    if holds_number(literal.signed, width, negative, magnitude) {
        return Ok(());
    }
    Err(Refused::Fault(FirFault::LiteralLegality(literal.place, width, negative, magnitude)))
}

/// E21 of an operation whose first operand has that width.
fn operation(
    alloc: Global,
    place: Place,
    op: PrimOp,
    width: u32,
    integers: &[u128],
) -> Result<(), Refused<FirFault>>
    ensures { Judges (operation_faults place op width integers.now) result }
{
    if op.is_legal(width, integer(integers, 0), integer(integers, 1)) {
        return Ok(());
    }
    let word = Name::new(alloc, op.word())?;
    let numbers = behind_width(alloc, width, integers)?;
    Err(Refused::Fault(FirFault::Legality(place, word, numbers)))
}

/// The integers behind the width.
fn behind_width(alloc: Global, width: u32, integers: &[u128]) -> Result<Seq<u128>, MemoryOut>
    ensures { IfOk result (λ numbers. numbers ≡ width ∷ integers.now) }
{
    let mut numbers = Vec::new(alloc);
    numbers.push(u128::from(width))?;
    numbers.extend_from_slice(integers)?;
    Ok(Seq::from_vec(numbers))
}

/// E22 of a UInt of another width than 1.
fn condition(
    table: &TypeTable,
    widths: &[u32],
    place: Place,
    side: Side,
) -> Result<(), Refused<FirFault>>
    ensures { Judges (condition_at place (found_type (types_of table.now) side.found) (assigned widths.now side.first)) result }
{
    if sort(table, side.found) != Sort::UInt {
        return Ok(());
    }
    let width = width_at(widths, side.first);
    if width == 1 {
        return Ok(());
    }
    Err(Refused::Fault(FirFault::Condition(place, u128::from(width))))
}

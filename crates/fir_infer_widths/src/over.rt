//! E19: what is over 128 bits (FIRRTL spec, "Width Inference").

ghost use Rattle.std.specs.Prelude.{◌≡◌, IfOk, flat_map};
ghost use Rattle.fir_ast.specs.working.Views.{named_of, sink_of};
ghost use Rattle.fir_ast.specs.working.TypeViews.{type_of};
ghost use Rattle.fir_type_table.specs.working.Tables.{types_of};
ghost use Rattle.fir_types.specs.working.Walked.{Judges};
ghost use Rattle.fir_meaning.specs.working.AssignedWidths.{assigned};
ghost use Rattle.fir_infer_widths.specs.working.SpotFaults.{choice_word, is_any_over, leaves_of_side, named_over, over_at, sink_over, word_where, written_over};

use crate::first_leaf::is_over;
use crate::first_over::first_over;
use crate::first_written_over::first_written_over;
use crate::leaf_path::{leaf_of_name, leaf_of_reference};
use crate::spot::Spot;
use fir_ast::{FirFault, Ident, Place, Reference, Ty};
use fir_base::{MemoryOut, Name, Refused};
use fir_type_table::TypeTable;
use fir_width::Side;
use std::alloc::Global;

/// Nothing is over, or the first fault of what is; the widths stand by their numbers.
pub fn nothing_over(
    alloc: Global,
    table: &TypeTable,
    widths: &[u32],
    spots: &[Spot],
) -> Result<(), Refused<FirFault>>
    ensures { Judges (flat_map (over_at (types_of table.now) (assigned widths.now)) spots.now) result }
{
    for spot in spots {
        at_spot(alloc, table, widths, spot)?;
    }
    Ok(())
}

fn at_spot(
    alloc: Global,
    table: &TypeTable,
    widths: &[u32],
    spot: &Spot,
) -> Result<(), Refused<FirFault>>
    ensures { Judges (over_at (types_of table.now) (assigned widths.now) spot.now) result }
{
    match spot {
        Spot::Declared(ident, side) => declared(alloc, table, widths, ident, *side),
        Spot::Port(_, ident, side) => declared(alloc, table, widths, ident, *side),
        Spot::Array(ident, ty) => array(alloc, ident, ty),
        Spot::Reference(reference, side) => referred(alloc, table, widths, reference, *side),
        Spot::Literal(literal, number) => {
            word_where(alloc, is_over(widths, *number), literal.place, b"literal")
        }
        Spot::Operation(place, op, _, _, number) => {
            word_where(alloc, is_over(widths, *number), *place, op.word())
        }
        Spot::Choice(place, is_mux, side) => chosen(alloc, table, widths, *place, *is_mux, *side),
        Spot::Condition(_, _) => Ok(()),
    }
}

/// The first leaf of what is declared.
fn declared(
    alloc: Global,
    table: &TypeTable,
    widths: &[u32],
    ident: &Ident,
    side: Side,
) -> Result<(), Refused<FirFault>>
    ensures { Judges (named_over (assigned widths.now) (named_of ident.now) (leaves_of_side (types_of table.now) side)) result }
{
    let Some(steps) = first_over(alloc, table, widths, side)? else {
        return Ok(());
    };
    let leaf = leaf_of_name(alloc, &ident.name, &steps)?;
    Err(Refused::Fault(FirFault::Over(ident.place, leaf)))
}

/// The first leaf of the words of a memory.
fn array(alloc: Global, ident: &Ident, ty: &Ty) -> Result<(), Refused<FirFault>>
    ensures { Judges (written_over (named_of ident.now) (type_of ty.now)) result }
{
    let Some(steps) = first_written_over(alloc, ty)? else {
        return Ok(());
    };
    let leaf = leaf_of_name(alloc, &ident.name, &steps)?;
    Err(Refused::Fault(FirFault::Over(ident.place, leaf)))
}

/// The first leaf of a reference.
fn referred(
    alloc: Global,
    table: &TypeTable,
    widths: &[u32],
    reference: &Reference,
    side: Side,
) -> Result<(), Refused<FirFault>>
    ensures { Judges (sink_over (assigned widths.now) (sink_of reference.now) (leaves_of_side (types_of table.now) side)) result }
{
    let Some(steps) = first_over(alloc, table, widths, side)? else {
        return Ok(());
    };
    let leaf = leaf_of_reference(alloc, reference, &steps)?;
    Err(Refused::Fault(FirFault::Over(reference.place, leaf)))
}

/// A mux or a validif, by its word.
fn chosen(
    alloc: Global,
    table: &TypeTable,
    widths: &[u32],
    place: Place,
    is_mux: bool,
    side: Side,
) -> Result<(), Refused<FirFault>>
    ensures { Judges (word_where (is_any_over (assigned widths.now) (leaves_of_side (types_of table.now) side)) place (choice_word is_mux)) result }
{
    let is_over = is_any_over(alloc, table, widths, side)?;
    word_where(alloc, is_over, place, choice_word(is_mux))
}

fn is_any_over(
    alloc: Global,
    table: &TypeTable,
    widths: &[u32],
    side: Side,
) -> Result<bool, MemoryOut>
    ensures { IfOk result (λ over. over ≡ is_any_over (assigned widths.now) (leaves_of_side (types_of table.now) side)) }
{
    let leaf = first_over(alloc, table, widths, side)?;
    Ok(leaf.is_some())
}

fn choice_word(is_mux: bool) -> &'static [u8]
    ensures { result.now ≡ choice_word is_mux }
{
    if is_mux { b"mux" } else { b"validif" }
}

/// E19 of a word, where that is over.
fn word_where(
    alloc: Global,
    is_over: bool,
    place: Place,
    word: &[u8],
) -> Result<(), Refused<FirFault>>
    ensures { Judges (word_where is_over place word.now) result }
{
    if !is_over {
        return Ok(());
    }
    let word = Name::new(alloc, word)?;
    Err(Refused::Fault(FirFault::Over(place, word)))
}

//! The first leaf of a type that is over (FIRRTL spec, "Width Inference").

ghost use Rattle.std.specs.Prelude.{◌≡◌, IfOk, flat_map, option_map};
ghost use Rattle.fir_meaning.specs.LeafPaths.{step_text};
ghost use Rattle.fir_type_table.specs.working.Tables.{types_of};
ghost use Rattle.fir_type_table.specs.working.Wanted.{IsPathFound};
ghost use Rattle.fir_meaning.specs.working.AssignedWidths.{assigned};
ghost use Rattle.fir_infer_widths.specs.working.FirstLeaves.{first_where, leaf_is_over};
ghost use Rattle.fir_infer_widths.specs.working.SpotFaults.{leaves_of_side};

use crate::first_leaf::{Test, find_leaf, is_over};
use fir_base::MemoryOut;
use fir_type_table::TypeTable;
use fir_types::Found;
use fir_width::Side;
use std::alloc::Global;

/// The path within a side to its first leaf that is over; the widths stand by their numbers.
pub fn first_over(
    alloc: Global,
    table: &TypeTable,
    widths: &[u32],
    side: Side,
) -> Result<Option<Vec<u8>>, MemoryOut>
    ensures { IfOk result (λ r. option_map (λ v. v.items) r ≡ option_map (flat_map step_text) (first_where (leaf_is_over (assigned widths.now)) (leaves_of_side (types_of table.now) side))) }
{
    let mut path = Vec::new(alloc);
    if find_in_side(table, widths, side, &mut path)? {
        return Ok(Some(path));
    }
    Ok(None)
}

/// Writes the path behind what stands there. Where there is no such leaf nothing is written.
fn find_in_side(
    table: &TypeTable,
    widths: &[u32],
    side: Side,
    path: &mut Vec<u8>,
) -> Result<bool, MemoryOut>
    ensures { IfOk result (λ found. IsPathFound path.old.items path.new.items found (first_where (leaf_is_over (assigned widths.now)) (leaves_of_side (types_of table.now) side))) }
{
    match side.found {
        Found::Type(id, _) => find_leaf(table, widths, Test::Over, id, side.first, path),
        Found::Number(_, _) | Found::AsyncReset => Ok(is_over(widths, side.first)),
    }
}

//! The first input of a port without a width (FIRRTL spec, "Width Inference").

ghost use Rattle.std.specs.Prelude.{◌≡◌, IfOk, flat_map, option_map};
ghost use Rattle.fir_meaning.specs.LeafPaths.{step_text};
ghost use Rattle.fir_type_table.specs.working.Tables.{types_of};
ghost use Rattle.fir_type_table.specs.working.Wanted.{IsPathFound};
ghost use Rattle.fir_infer_widths.specs.working.FirstLeaves.{first_where, is_unwritten_input};
ghost use Rattle.fir_infer_widths.specs.working.SpotFaults.{leaves_of_side};

use crate::first_leaf::{Test, find_leaf};
use fir_base::MemoryOut;
use fir_type_table::TypeTable;
use fir_types::Found;
use fir_width::Side;
use std::alloc::Global;

/// The path within a port to its first input leaf without a width; `inward` tells whether straight leaves
/// are inputs, or else flipped ones.
pub fn first_unwritten(
    alloc: Global,
    table: &TypeTable,
    side: Side,
    inward: bool,
) -> Result<Option<Vec<u8>>, MemoryOut>
    ensures { IfOk result (λ r. option_map (λ v. v.items) r ≡ option_map (flat_map step_text) (first_where (is_unwritten_input inward) (leaves_of_side (types_of table.now) side))) }
{
    let mut path = Vec::new(alloc);
    if find_in_side(table, side, inward, &mut path)? {
        return Ok(Some(path));
    }
    Ok(None)
}

/// Writes the path behind what stands there. Where there is no such leaf nothing is written.
fn find_in_side(
    table: &TypeTable,
    side: Side,
    inward: bool,
    path: &mut Vec<u8>,
) -> Result<bool, MemoryOut>
    ensures { IfOk result (λ found. IsPathFound path.old.items path.new.items found (first_where (is_unwritten_input inward) (leaves_of_side (types_of table.now) side))) }
{
    match side.found {
        Found::Type(id, is_bare) => {
            find_leaf(
                table,
                &[],
                Test::Unwritten(is_bare, inward),
                id,
                side.first,
                path,
            )
        }
        Found::Number(_, width) => Ok(inward && width.is_none()),
        Found::AsyncReset => Ok(false),
    }
}

//! The leaves of a type, with what they hold (FIRRTL spec, "Types").

ghost use Rattle.std.specs.Prelude.{◌≡◌, IfOk};
ghost use Rattle.fir_ast.specs.working.Views.{circuit_of};
ghost use Rattle.fir_meaning.specs.SizedTypes.{Sized};
ghost use Rattle.fir_meaning.specs.TypeLeaves.{type_leaves};
ghost use Rattle.fir_meaning.specs.WidthExpressions.{Widths as Assignment};
ghost use Rattle.fir_meaning.specs.WidthRules.{AreWidths};
ghost use Rattle.fir_type_table.specs.working.Tables.{types_of};
ghost use Rattle.fir_types.specs.working.Seen.{found_type};
ghost use Rattle.fir_meaning.specs.HeldTypes.{held_types};
ghost use Rattle.fir_width.specs.declared.side.Side.{Side};
ghost use Rattle.fir_width.specs.working.DeclaredWidths.{leaf_widths};
ghost use Rattle.fir_width.specs.working.Sides.{IsSide};
ghost use Rattle.fir_leaf_table.specs.working.TypedLeaves.{flips_of, flips_seen, holds_seen};

use crate::push_leaves::push_found;
use fir_base::MemoryOut;
use fir_leaf_circuit::LeafType;
use fir_type_table::TypeTable;
use fir_types::Found;
use fir_width::Fitted;
use std::alloc::Global;

/// A leaf of a type.
#[derive(Clone, Copy)]
pub struct TypeLeaf {
    pub flip: bool,
    pub holds: LeafType,
}

/// The leaves of what is found, in the order of the type. The widths of its leaves stand under the numbers
/// from one on, where all elements of a vector share theirs.
pub fn type_leaves(
    alloc: Global,
    fitted: &Fitted,
    table: &TypeTable,
    found: Found,
    first: usize,
) -> Result<Vec<TypeLeaf>, MemoryOut>
    ensures flips { IfOk result (λ leaves. flips_seen leaves.items ≡ flips_of (type_leaves (found_type (types_of table.now) found))) }
    ensures holds { IfOk result (λ leaves. (s : Sized) (w : Assignment) → IsSide (types_of table.now) (leaf_widths (circuit_of fitted.now)) (record { found = found; first = first }) s → AreWidths (circuit_of fitted.now) w → holds_seen leaves.items ≡ held_types w s) }
{
    let mut leaves = Vec::new(alloc);
    push_found(fitted, table, found, first, &mut leaves)?;
    Ok(leaves)
}

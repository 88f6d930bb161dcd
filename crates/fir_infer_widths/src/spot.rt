//! Where faults of widths may stand.

ghost use Rattle.std.specs.Prelude.{◌≡◌, [], ◌∷◌, ◌++◌, OnOk};

use fir_ast::{Ident, Literal, Place, Reference, Ty};
use fir_base::{Direction, MemoryOut};
use fir_bits::PrimOp;
use fir_width::Side;

/// What is declared, a form of an expression, or a condition.
#[derive(Drop)]
pub enum Spot<'a> {
    Declared(&'a Ident, Side),
    /// A port of the main module.
    Port(Direction, &'a Ident, Side),
    /// A memory without ports, and the type of its words.
    Array(&'a Ident, &'a Ty),
    Reference(&'a Reference, Side),
    /// A literal, and its number.
    Literal(&'a Literal, usize),
    /// An operation, its integers, and the numbers of its first operand and of its result.
    Operation(Place, PrimOp, &'a [u128], usize, usize),
    /// A mux, or else a validif.
    Choice(Place, bool, Side),
    Condition(Place, Side),
}

/// Appends a spot.
pub fn put_spot<'a>(spots: &mut Vec<Spot<'a>>, spot: Spot<'a>) -> Result<(), MemoryOut>
    ensures { OnOk result (spots.new.items ≡ spots.old.items ++ spot.entry ∷ []) }
{
    spots.push(spot)?;
    Ok(())
}

//! What the walk has of an expression.

ghost use Rattle.std.specs.Prelude.{◌≡◌};
ghost use Rattle.fir_meaning.specs.SharedLeaves.{shared_count};
ghost use Rattle.fir_type_table.specs.working.Saturated.{saturated};
ghost use Rattle.fir_type_table.specs.working.Tables.{types_of};
ghost use Rattle.fir_types.specs.working.Seen.{found_type};

use fir_type_table::TypeTable;
use fir_types::Found;
use fir_types::found::shared_leaves;

/// The type of an expression, and the number of its first leaf; its other leaves have the numbers behind
/// it, in the order of the type, where all elements of a vector have the numbers of one.
#[derive(Clone, Copy)]
pub struct Side {
    pub found: Found,
    pub first: usize,
}

impl Side {
    /// What a circuit without a fault of types has nowhere: an expression that names nothing.
    pub const NOTHING: Side = Side {
        found: Found::AsyncReset,
        first: 0,
    };

    /// How many numbers it has; at most 2^64 - 1.
    pub fn count(self, table: &TypeTable) -> usize
        ensures { result ≡ saturated (shared_count (found_type (types_of table.now) self.found)) }
    {
        shared_leaves(table, self.found) as usize
    }
}

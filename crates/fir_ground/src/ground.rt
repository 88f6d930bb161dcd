//! What stands round the expressions of a module.

use fir_type_table::TypeTable;

/// The types of the circuit, and where the leaves of what the module declares begin.
#[derive(Clone, Copy)]
pub struct Ground<'a> {
    pub table: &'a TypeTable,
    /// The number of the first leaf of each declaration, in the order of the text.
    pub firsts: &'a [usize],
}

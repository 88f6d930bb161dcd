//! What the walk over a module reads beside its tree.

use fir_ast::LeafId;
use fir_type_table::TypeTable;
use fir_types::Found;

/// What is found of a module.
#[derive(Drop)]
pub struct Ground<'a> {
    pub table: &'a TypeTable,
    /// The types of what it declares, and the numbers of their first leaves.
    pub declared: &'a [Option<Found>],
    pub first_leaves: &'a [LeafId],
    /// Whether it is the main module.
    pub is_main: bool,
}

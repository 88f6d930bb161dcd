//! What the check has found of a circuit.

use crate::found::Found;
use crate::note::Note;
use fir_ast::LeafId;
use fir_type_table::TypeTable;

/// The types of a circuit, and what each of its modules declares and names, by the modules' numbers.
#[derive(Drop)]
pub struct Findings {
    /// The types, each under its id.
    pub table: TypeTable,
    /// The types of what is declared, in the order of the text.
    pub declared: Vec<Vec<Option<Found>>>,
    /// What is found of the expressions, in the order of the text: operands before the form itself, and an
    /// index before its reference.
    pub notes: Vec<Vec<Note>>,
    /// The number of the first leaf of each declaration, in the order of the text, where all elements of a
    /// vector have the numbers of one; at most 2^64 - 1.
    pub first_leaves: Vec<Vec<LeafId>>,
}

//! Where the modules of a design stand.

use fir_ast::LeafId;
use fir_base::Name;

/// A module of the design: the main module, or the one of an instance.
#[derive(Drop)]
pub struct ModuleCopy {
    /// The number of the module in the circuit.
    pub module_number: usize,
    /// The number that the first leaf of its ports has in the whole. Of an instance it is that of the leaf that the
    /// holding module has there.
    pub first: usize,
    /// The number that the first of its other leaves has.
    pub own: usize,
    /// The number that the first of its arrays has.
    pub array: usize,
    /// What stands before the path of each of its leaves as it is printed: the names of its instances, each with a dot
    /// behind it.
    pub prefix: Name,
}

/// The modules of a design, each before those of its instances; and the words of the state in their order, and the
/// numbers of the arrays that have bits in theirs.
#[derive(Drop)]
pub struct Elaborated {
    pub copies: Vec<ModuleCopy>,
    pub state: Vec<LeafId>,
    pub array_order: Vec<usize>,
}

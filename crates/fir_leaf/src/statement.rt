//! Statements over the leaves of a module, whose terms are nodes.

use fir_ast::Place;

/// A statement over leaves.
#[cycle(statements)]
#[derive(Drop)]
pub enum LeafStmt {
    Drive(Drive),
    When(LeafWhen),
    Instance(LeafInstance),
}

/// A leaf is driven.
#[derive(Clone, Copy)]
pub struct Drive {
    /// Where the connect or the invalid stands.
    pub place: Place,
    /// The number of the leaf, or of the one from which the indices count.
    pub leaf: usize,
    /// The node of the last index.
    pub picks: Option<usize>,
    /// The node that it takes its value from.
    pub given: usize,
}

/// A condition, by its node, and the statements where it is 1 and where it is 0.
#[cycle(statements)]
#[derive(Drop)]
pub struct LeafWhen {
    pub place: Place,
    pub condition: usize,
    pub then_block: Vec<LeafStmt>,
    pub else_block: Vec<LeafStmt>,
}

/// An instance of the module with that number, whose ports have the leaves from that number on.
#[derive(Clone, Copy)]
pub struct LeafInstance {
    /// How many are declared before it.
    pub declaration: usize,
    pub module_number: usize,
    pub first: usize,
}

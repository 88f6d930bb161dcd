//! What the walk over statements keeps of declarations, besides the statements over leaves (FIRRTL spec,
//! "Nodes", "Registers").

use crate::reset_kind::ResetKind;

/// What gives the leaves of a declaration their values, by nodes.
#[derive(Drop)]
pub enum Driver {
    /// Statements, an instance or a memory.
    Others,
    /// A node: the nodes of its leaves.
    Node(Vec<usize>),
    Register(RegisterDriver),
}

#[derive(Drop)]
pub struct RegisterDriver {
    /// The node of its clock.
    pub clock: usize,
    pub reset: Option<ResetDriver>,
}

#[derive(Drop)]
pub struct ResetDriver {
    /// The node of the condition.
    pub condition: usize,
    pub kind: ResetKind,
    /// The nodes of the init's leaves.
    pub init: Vec<usize>,
}

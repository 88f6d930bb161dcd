//! The numbers of leaves and nodes, which contracts see as numbers.

ghost use Rattle.std.specs.Prelude.{◌≡◌};

use std::marker::Model;

/// The number of a leaf of a circuit or of a net, from 0.
#[derive(Clone, Copy, PartialEq, Eq, Hash)]
pub struct LeafId {
    number: usize,
}

impl Model for LeafId {
    ghost use Rattle.std.specs.Prelude.{ℕ};

    ghost Value = { ℕ };

    ghost view = { λ i. i.number };

    ghost inverse = { λ n. record { number = n } };
}

impl LeafId {
    /// The leaf of that number.
    pub const fn new(number: usize) -> LeafId
        ensures { result ≡ number }
    {
        LeafId { number }
    }

    /// Its number.
    pub fn number(self) -> usize
        ensures { result ≡ self }
    {
        self.number
    }
}

/// The number of a node of a net, from 0.
#[derive(Clone, Copy, PartialEq, Eq, Hash)]
pub struct NodeId {
    number: usize,
}

impl Model for NodeId {
    ghost use Rattle.std.specs.Prelude.{ℕ};

    ghost Value = { ℕ };

    ghost view = { λ i. i.number };

    ghost inverse = { λ n. record { number = n } };
}

impl NodeId {
    /// The node of that number.
    pub const fn new(number: usize) -> NodeId
        ensures { result ≡ number }
    {
        NodeId { number }
    }

    /// Its number.
    pub fn number(self) -> usize
        ensures { result ≡ self }
    {
        self.number
    }
}

//! Nodes: values that are computed.

ghost use Rattle.std.specs.Prelude.{◌≡◌};
ghost use Rattle.fir_net.specs.working.Dependence.{support_of};

use crate::reads::{Read, Reads};
use fir_base::Seq;
use fir_bits::{Num, PrimOp};
use std::hash::{Hash, Hasher};

/// An operation, with the type of its result: whether it is an SInt, and its width in bits.
#[derive(Drop)]
pub struct Operation {
    pub op: PrimOp,
    pub reads: Reads,
    pub integers: Seq<u128>,
    pub signed: bool,
    pub width: u32,
}

impl PartialEq for Operation {
    ghost use Rattle.std.specs.Cmp.{partial_equiv_from_equiv};
    ghost use Rattle.fir_net.specs.working.EqualNodes.{equal_operations, operations_equiv};

    ghost eq = { equal_operations };

    ghost laws = { partial_equiv_from_equiv operations_equiv };

    fn eq(&self, other: &Operation) -> bool {
        self.op == other.op
            && self.reads == other.reads
            && self.integers.as_slice() == other.integers.as_slice()
            && self.signed == other.signed
            && self.width == other.width
    }
}

impl Eq for Operation {
    ghost use Rattle.fir_net.specs.working.EqualNodes.{operations_equiv};

    ghost laws = { operations_equiv };
}

impl Hash for Operation {
    ghost use Rattle.fir_net.specs.working.EqualNodes.{operation_writes, operations_alike};

    ghost hash_input = { operation_writes };

    ghost respects_eq = { operations_alike.fed };

    fn hash<H: Hasher>(&self, state: &mut H) {
        (self.op as u8).hash(state);
        self.reads.hash(state);
        self.integers.as_slice().hash(state);
        self.signed.hash(state);
        self.width.hash(state);
    }
}

/// A choice between two values of one signedness, with the type of its result: whether it is an SInt, and its
/// width in bits, which is the greater one of theirs.
#[derive(PartialEq, Eq, Hash, Drop)]
pub struct Mux {
    /// The condition, what counts where it is 1, and what counts where it is 0.
    pub reads: [Read; 3],
    pub signed: bool,
    pub width: u32,
}

/// A node: a value that is computed from leaves and from nodes of lower numbers.
#[derive(PartialEq, Eq, Drop)]
pub enum Node {
    Literal(Num),
    Operation(Operation),
    Mux(Mux),
}

impl Node {
    /// The leaves and nodes that the node reads at once.
    pub fn support(&self) -> &[Read]
        ensures { result.now ≡ support_of self.now }
    {
        match self {
            Node::Literal(_) => &[],
            Node::Operation(operation) => operation.reads.as_slice(),
            Node::Mux(mux) => &mux.reads,
        }
    }
}

impl Hash for Node {
    ghost use Rattle.fir_net.specs.working.NodeHash.{node_writes, nodes_alike};

    ghost hash_input = { node_writes };

    ghost respects_eq = { nodes_alike };

    fn hash<H: Hasher>(&self, state: &mut H) {
        match self {
            Node::Literal(value) => {
                state.write_u8(0);
                value.signed.hash(state);
                value.value.width().hash(state);
                value.value.bits().hash(state);
            }
            Node::Operation(operation) => {
                state.write_u8(1);
                operation.hash(state);
            }
            Node::Mux(mux) => {
                state.write_u8(2);
                mux.hash(state);
            }
        }
    }
}

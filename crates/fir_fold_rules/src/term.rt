//! Terms: what nodes compute, in the form in which the rules speak of them.

ghost use Rattle.std.specs.Prelude.{◌≡◌, length, true};
ghost use Rattle.fir_bits.specs.Forms.{form_of, has_counts};
ghost use Rattle.fir_net.specs.declared.node.Node.TheVariants.{Operation as Computed};
ghost use Rattle.fir_net.specs.working.IsNet.{node_type};
ghost use Rattle.fir_fold_rules.specs.declared.replacement.Replacement.TheVariants.{Node as By};
ghost use Rattle.fir_fold_rules.specs.working.Terms.{HasCounts, replacement_of};

use fir_bits::PrimOp;
use fir_net::{Node, Operation, Read};

/// What a node computes. Its type stands beside it.
#[derive(Clone, Copy)]
pub enum Term {
    /// The value of a leaf or of another node.
    Read(Read),
    /// A literal's number.
    Number(u128),
    /// An operation on one operand.
    Single(PrimOp, Read),
    /// An operation on two operands.
    Pair(PrimOp, Read, Read),
    /// An operation on an operand and an integer.
    Integer(PrimOp, Read, u128),
    /// An operation on an operand and two integers.
    Range(PrimOp, Read, u128, u128),
    /// What counts where the condition is 1, and what counts where it is 0, behind the condition.
    Mux(Read, Read, Read),
}

/// The node's term.
pub fn term_of(node: &Node) -> Term
    requires { HasCounts node.now }
    ensures { By node.now ≡ replacement_of (node_type node.now) result }
{
    match node {
        Node::Literal(value) => Term::Number(value.value.bits()),
        Node::Operation(operation) => operation_term(operation),
        Node::Mux(mux) => {
            let [condition, one, zero] = mux.reads;
            Term::Mux(condition, one, zero)
        }
    }
}

fn operation_term(operation: &Operation) -> Term
    requires { has_counts (form_of operation.now.op) (length operation.now.reads) (length operation.now.integers) ≡ true }
    ensures { By (Computed operation.now) ≡ replacement_of (node_type (Computed operation.now)) result }
{
    let op = operation.op;
    let integers = operation.integers.as_slice();
    match operation.reads.as_slice() {
        [a] => match integers {
            [] => Term::Single(op, *a),
            [n] => Term::Integer(op, *a, *n),
            [n, m] => Term::Range(op, *a, *n, *m),
            _ => unreachable!(),
        },
        [a, b] => match integers {
            [] => Term::Pair(op, *a, *b),
            _ => unreachable!(),
        },
        _ => unreachable!(),
    }
}

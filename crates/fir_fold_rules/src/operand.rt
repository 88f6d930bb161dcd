//! What the rules know of an operand.

ghost use Rattle.std.specs.Prelude.{◌≡◌, ℕ, [], false, true, IfSome};
ghost use Rattle.fir_bits.specs.declared.operators.PrimOp.TheVariants.{Bits, Cat};
ghost use Rattle.fir_net.specs.declared.reads.Read.{Read as Place};
ghost use Rattle.fir_net.specs.working.IsNet.{AreNodes, CanRead, read_type};
ghost use Rattle.fir_fold_rules.specs.declared.term.Term.TheVariants.{Integer as WithInteger, Number as Literal, Pair as Two, Range as Between, Single as One};
ghost use Rattle.fir_fold_rules.specs.working.Rules.{IsOnes, IsOperandAt, inner_type};

use crate::lookups::read_type;
use crate::term::{Term, term_of};
use fir_bits::{NO_TYPE, NumTy, PrimOp, mask};
use fir_net::{Leaf, Node, Read};
use indexmap::IndexSet;

/// A leaf or a node that is read, and what is known of it.
#[derive(Clone, Copy)]
pub struct Operand {
    pub read: Read,
    pub ty: NumTy,
    /// What the node computes; of a leaf the leaf itself.
    pub term: Term,
    /// The type of the last thing that the term reads.
    pub inner: NumTy,
}

/// Bits of a leaf or a node, from the high one down to the low one.
#[derive(Clone, Copy)]
pub struct Field {
    pub read: Read,
    pub high: u128,
    pub low: u128,
}

impl Operand {
    /// What is known of a leaf or a node.
    pub fn of(leaves: &[Leaf], nodes: &IndexSet<Node>, read: &Read) -> Operand
        requires are { AreNodes leaves.now [] nodes.now.keys }
        requires can { CanRead leaves.now nodes.now.keys read.now }
        ensures { IsOperandAt leaves.now nodes.now.keys read.now result }
    {
        let ty = read_type(leaves, nodes, read);
        match read {
            Read::Leaf(_) => Operand {
                read: *read,
                ty,
                term: Term::Read(*read),
                inner: ty,
            },
            Read::Node(number) => match nodes.get_index(number.number()) {
                Some(node) => {
                    let term = term_of(node);
                    let inner = inner_type(leaves, nodes, &term);
                    Operand {
                        read: *read,
                        ty,
                        term,
                        inner,
                    }
                }
                None => unreachable!(),
            },
        }
    }

    /// Whether it is a literal of that number.
    pub fn is_number(&self, number: u128) -> bool
        ensures { result ≡ true → self.now.term ≡ Literal number }
    {
        match self.term {
            Term::Number(found) => found == number,
            _ => false,
        }
    }

    /// Whether it is a literal whose bits are all 1 at that width.
    pub fn is_ones(&self, width: u32) -> bool
        ensures { result ≡ true → IsOnes self.now width }
    {
        match self.term {
            Term::Number(number) => width <= 128 && number == mask(width),
            _ => false,
        }
    }

    /// Whether it is an SInt.
    pub fn is_signed(&self) -> bool
        ensures { result ≡ true → self.now.ty.signed ≡ true }
    {
        self.ty.signed
    }

    /// Whether it is a UInt.
    pub fn is_unsigned(&self) -> bool
        ensures { result ≡ true → self.now.ty.signed ≡ false }
    {
        !self.ty.signed
    }

    /// Whether it has so many bits.
    pub fn has_width(&self, width: u32) -> bool
        ensures { result ≡ true → self.now.ty.width ≡ width }
    {
        self.ty.width == width
    }

    /// What the operation reads that the operand is.
    pub fn single(&self, op: PrimOp) -> Option<&Read>
        ensures { IfSome result (λ y. self.now.term ≡ One op y.now) }
    {
        match &self.term {
            Term::Single(found, y) if *found == op => Some(y),
            _ => None,
        }
    }

    /// What the operation and an integer read that the operand is.
    pub fn integer(&self, op: PrimOp) -> Option<&Read>
        ensures { IfSome result (λ y. (n : ℕ) × (self.now.term ≡ WithInteger op y.now n)) }
    {
        match &self.term {
            Term::Integer(found, y, _) if *found == op => Some(y),
            _ => None,
        }
    }

    /// Of bits side by side those above.
    pub fn upper(&self) -> Option<&Read>
        ensures { IfSome result (λ y. (z : Place) × (self.now.term ≡ Two Cat y.now z)) }
    {
        match &self.term {
            Term::Pair(PrimOp::Cat, y, _) => Some(y),
            _ => None,
        }
    }

    /// Of bits side by side those below.
    pub fn lower(&self) -> Option<&Read>
        ensures { IfSome result (λ z. (y : Place) × (self.now.term ≡ Two Cat y z.now)) }
    {
        match &self.term {
            Term::Pair(PrimOp::Cat, _, z) => Some(z),
            _ => None,
        }
    }

    /// The bits of another leaf or node that the operand is.
    pub fn field(&self) -> Option<Field>
        ensures { IfSome result (λ f. self.now.term ≡ Between Bits f.read f.high f.low) }
    {
        match &self.term {
            Term::Range(PrimOp::Bits, read, high, low) => Some(Field {
                read: *read,
                high: *high,
                low: *low,
            }),
            _ => None,
        }
    }

    /// Whether it is a UInt of one bit.
    pub fn is_bit(&self) -> bool
        ensures { result ≡ true → (self.now.ty.signed ≡ false) × (self.now.ty.width ≡ 1) }
    {
        !self.ty.signed && self.ty.width == 1
    }

    /// Whether it is a literal.
    pub fn is_literal(&self) -> bool {
        matches!(self.term, Term::Number(_))
    }

    /// Whether both are one leaf or node.
    pub fn is_same(&self, other: &Operand) -> bool
        ensures { result ≡ true → self.now.read ≡ other.now.read }
    {
        is_same_read(&self.read, &other.read)
    }
}

/// The type of the last thing that a term reads.
fn inner_type(leaves: &[Leaf], nodes: &IndexSet<Node>, term: &Term) -> NumTy
    ensures { result ≡ inner_type (read_type leaves.now nodes.now.keys) term.now }
{
    match term {
        Term::Number(_) => NO_TYPE,
        Term::Read(read) => read_type(leaves, nodes, read),
        Term::Single(_, a) => read_type(leaves, nodes, a),
        Term::Pair(_, _, b) => read_type(leaves, nodes, b),
        Term::Integer(_, a, _) => read_type(leaves, nodes, a),
        Term::Range(_, a, _, _) => read_type(leaves, nodes, a),
        Term::Mux(_, _, b) => read_type(leaves, nodes, b),
    }
}

/// Whether both are one leaf or node.
pub fn is_same_read(a: &Read, b: &Read) -> bool
    ensures { result ≡ true → a.now ≡ b.now }
{
    match (a, b) {
        (Read::Leaf(a), Read::Leaf(b)) => a.number() == b.number(),
        (Read::Node(a), Read::Node(b)) => a.number() == b.number(),
        _ => false,
    }
}

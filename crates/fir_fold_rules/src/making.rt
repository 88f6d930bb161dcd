//! Terms as what stands in the place of nodes.

ghost use Rattle.std.specs.Prelude.{◌≡◌, [], ◌∷◌, IfOk};
ghost use Rattle.std.specs.Prelude.{◌<◌, ◌^◌, ◌≤◌};
ghost use Rattle.fir_fold_rules.specs.declared.replacement.Replacement.TheVariants.{Node as By};
ghost use Rattle.fir_net.specs.declared.node.Node.TheVariants.{Operation as Computed};
ghost use Rattle.fir_net.specs.working.IsNet.{read_type};
ghost use Rattle.fir_fold_rules.specs.working.Terms.{IsNumber, replacement_of};

use crate::replacement::Replacement;
use crate::term::Term;
use fir_base::{MemoryOut, Seq};
use fir_bits::{Bits, Num, NumTy, PrimOp};
use fir_net::{Mux, Node, Operation, Read, Reads};
use std::alloc::Global;

/// What stands in the place of a node of that type: a read, or the term as a node.
pub fn replacement(alloc: Global, ty: NumTy, term: &Term) -> Result<Replacement, MemoryOut>
    requires { IsNumber ty term.now }
    ensures { IfOk result (λ by. by ≡ replacement_of ty term.now) }
{
    match term {
        Term::Read(read) => Ok(Replacement::Read(*read)),
        Term::Number(number) => Ok(Replacement::Node(Node::Literal(Num {
            signed: ty.signed,
            value: Bits::of(ty.width, *number),
        }))),
        Term::Single(op, a) => on_one(alloc, ty, *op, a, &[]),
        Term::Integer(op, a, n) => on_one(alloc, ty, *op, a, &[*n]),
        Term::Range(op, a, n, m) => on_one(alloc, ty, *op, a, &[*n, *m]),
        Term::Pair(op, a, b) => on_two(alloc, ty, *op, a, b),
        Term::Mux(c, a, b) => Ok(Replacement::Node(Node::Mux(Mux {
            reads: [*c, *a, *b],
            signed: ty.signed,
            width: ty.width,
        }))),
    }
}

/// An operation on one operand, of that type.
fn on_one(
    alloc: Global,
    ty: NumTy,
    op: PrimOp,
    a: &Read,
    integers: &[u128],
) -> Result<Replacement, MemoryOut>
    ensures { IfOk result (λ by. by ≡ By (Computed (record { op = op; reads = a.now ∷ []; integers = integers.now; signed = ty.signed; width = ty.width }))) }
{
    let integers = Vec::from_slice(alloc, integers)?;
    let mut reads = Reads::new(alloc);
    reads.push(*a)?;
    Ok(operation(ty, op, reads, Seq::from_vec(integers)))
}

/// An operation on two operands, of that type.
fn on_two(
    alloc: Global,
    ty: NumTy,
    op: PrimOp,
    a: &Read,
    b: &Read,
) -> Result<Replacement, MemoryOut>
    ensures { IfOk result (λ by. by ≡ By (Computed (record { op = op; reads = a.now ∷ b.now ∷ []; integers = []; signed = ty.signed; width = ty.width }))) }
{
    let mut reads = Reads::new(alloc);
    reads.push(*a)?;
    reads.push(*b)?;
    Ok(operation(ty, op, reads, Seq::from_vec(Vec::new(alloc))))
}

fn operation(ty: NumTy, op: PrimOp, reads: Reads, integers: Seq<u128>) -> Replacement
    ensures { result ≡ By (Computed (record { op = op; reads = reads; integers = integers; signed = ty.signed; width = ty.width })) }
{
    Replacement::Node(Node::Operation(Operation {
        op,
        reads,
        integers,
        signed: ty.signed,
        width: ty.width,
    }))
}

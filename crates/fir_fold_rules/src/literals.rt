//! Operations on literals alone, and muxes whose condition is a literal.

ghost use Rattle.std.specs.Prelude.{◌≡◌, ◌≤◌, [], ◌∷◌, IfNone, IfSome, IsOk};
ghost use Rattle.fir_bits.specs.Operators.{applied};
ghost use Rattle.fir_bits.specs.working.Operators.{type_of};
ghost use Rattle.fir_bits.specs.working.Types.{typed};
ghost use Rattle.fir_bits.specs.declared.values.Num.{Num as Value};
ghost use Rattle.fir_net.specs.working.IsNet.{AreNodes, CanRead, read_type};
ghost use Rattle.fir_fold_rules.specs.declared.term.Term.TheVariants.{Mux as Chosen};
ghost use Rattle.fir_fold_rules.specs.working.Folded.{AppliedToOne, AppliedToTwo, Fits, IsFolded};
ghost use Rattle.fir_fold_rules.specs.working.Simplifies.{AreNarrow, IsLiteralNode};
ghost use Rattle.fir_fold_rules.specs.working.Terms.{IsLiteral, IsTerm, Stands};

use crate::lookups::{literal, read_type};
use crate::term::Term;
use fir_bits::{NumTy, PrimOp, apply};
use fir_net::{Leaf, Node, Read};
use indexmap::IndexSet;

/// The literal that an operation on literals alone gives, the value that a mux under a literal chooses, or else the
/// term itself.
pub fn folded(leaves: &[Leaf], nodes: &IndexSet<Node>, ty: NumTy, term: &Term) -> Term
    requires narrow { AreNarrow leaves.now }
    requires are { AreNodes leaves.now [] nodes.now.keys }
    requires is { IsTerm leaves.now nodes.now.keys ty term.now }
    ensures stands { Stands leaves.now nodes.now.keys ty term.now result }
    ensures folded { IsFolded nodes.now.keys result }
{
    let number = match term {
        Term::Single(op, a) => applied_to_one(nodes, *op, a, &[]),
        Term::Integer(op, a, n) => applied_to_one(nodes, *op, a, &[*n]),
        Term::Range(op, a, n, m) => applied_to_one(nodes, *op, a, &[*n, *m]),
        Term::Pair(op, a, b) => applied_to_two(nodes, *op, a, b),
        Term::Mux(c, a, b) => return chosen(leaves, nodes, ty, c, a, b),
        Term::Read(_) | Term::Number(_) => return *term,
    };
    match number {
        Some(number) => Term::Number(number),
        None => *term,
    }
}

/// The number of an operation on a literal.
fn applied_to_one(nodes: &IndexSet<Node>, op: PrimOp, a: &Read, integers: &[u128]) -> Option<u128>
    requires { (v : Value) → IsLiteral nodes.now.keys a.now v → IsOk (typed op (type_of v ∷ []) integers.now) }
    ensures some { IfSome result (AppliedToOne nodes.now.keys op a.now integers.now) }
    ensures none { IfNone result (IsLiteralNode nodes.now.keys a.now → ⊥) }
{
    let a = literal(nodes, a)?;
    Some(apply(op, &[a], integers).bits())
}

/// The number of an operation on two literals.
fn applied_to_two(nodes: &IndexSet<Node>, op: PrimOp, a: &Read, b: &Read) -> Option<u128>
    requires { (v w : Value) → IsLiteral nodes.now.keys a.now v → IsLiteral nodes.now.keys b.now w → IsOk (typed op (type_of v ∷ type_of w ∷ []) []) }
    ensures some { IfSome result (AppliedToTwo nodes.now.keys op a.now b.now) }
    ensures none { IfNone result (IsLiteralNode nodes.now.keys a.now → IsLiteralNode nodes.now.keys b.now → ⊥) }
{
    let a = literal(nodes, a)?;
    let b = literal(nodes, b)?;
    Some(apply(op, &[a, b], &[]).bits())
}

/// The value that a mux chooses under a literal, or else the mux.
fn chosen(leaves: &[Leaf], nodes: &IndexSet<Node>, ty: NumTy, c: &Read, a: &Read, b: &Read) -> Term
    requires narrow { AreNarrow leaves.now }
    requires are { AreNodes leaves.now [] nodes.now.keys }
    requires is { IsTerm leaves.now nodes.now.keys ty (Chosen c.now a.now b.now) }
    ensures stands { Stands leaves.now nodes.now.keys ty (Chosen c.now a.now b.now) result }
    ensures folded { IsFolded nodes.now.keys result }
{
    match literal(nodes, c) {
        Some(condition) if condition.value.bits() == 1 => fitted(leaves, nodes, ty, a),
        Some(_) => fitted(leaves, nodes, ty, b),
        None => Term::Mux(*c, *a, *b),
    }
}

/// A value at the width of a type of its signedness, which is its own width or a greater one.
fn fitted(leaves: &[Leaf], nodes: &IndexSet<Node>, ty: NumTy, read: &Read) -> Term
    requires can { CanRead leaves.now nodes.now.keys read.now }
    requires signed { (read_type leaves.now nodes.now.keys read.now).signed ≡ ty.signed }
    requires wider { (read_type leaves.now nodes.now.keys read.now).width ≤ ty.width }
    requires narrow { ty.width ≤ 128 }
    ensures fits { Fits leaves.now nodes.now.keys ty read.now result }
    ensures folded { IsFolded nodes.now.keys result }
{
    if read_type(leaves, nodes, read).width == ty.width {
        return Term::Read(*read);
    }
    match literal(nodes, read) {
        Some(value) => Term::Number(value.value.fit(value.signed, ty.width).bits()),
        None => Term::Integer(PrimOp::Pad, *read, u128::from(ty.width)),
    }
}

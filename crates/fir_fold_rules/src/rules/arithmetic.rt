//! Rules of sums, differences, products and quotients, and of operations whose operands may be turned.

ghost use Rattle.std.specs.Prelude.{◌≡◌, IfSome};
ghost use Rattle.fir_bits.specs.declared.operators.PrimOp.TheVariants.{Add, Div, Mul, Rem, Sub};
ghost use Rattle.fir_fold_rules.specs.working.Rules.{PairEquals, commutes};

use crate::operand::Operand;
use crate::rules::first_of;
use crate::term::Term;
use fir_bits::{NumTy, PrimOp};

/// op(n, x) = op(x, n), of a literal n, where the operation commutes
pub fn commuted(op: PrimOp, ty: NumTy, a: &Operand, b: &Operand) -> Option<Term>
    ensures { IfSome result (PairEquals op ty a.now b.now) }
{
    if commutes(op) && a.is_literal() && !b.is_literal() {
        Some(Term::Pair(op, b.read, a.read))
    } else {
        None
    }
}

/// Whether the operands may be turned.
fn commutes(op: PrimOp) -> bool
    ensures { result ≡ commutes op }
{
    matches!(
        op,
        PrimOp::Add
            | PrimOp::Mul
            | PrimOp::And
            | PrimOp::Or
            | PrimOp::Xor
            | PrimOp::Eq
            | PrimOp::Neq
    )
}

/// add(x, 0) = pad(x, w)
pub fn add_zero(ty: NumTy, a: &Operand, b: &Operand) -> Option<Term>
    ensures { IfSome result (PairEquals Add ty a.now b.now) }
{
    if b.is_number(0) {
        Some(Term::Integer(PrimOp::Pad, a.read, u128::from(ty.width)))
    } else {
        None
    }
}

/// The rules of `sub`.
pub fn sub_rules(ty: NumTy, a: &Operand, b: &Operand) -> Option<Term>
    ensures { IfSome result (PairEquals Sub ty a.now b.now) }
{
    first_of!(sub_zero(ty, a, b), sub_itself(ty, a, b),)
}

/// sub(x, 0) = pad(x, w)
fn sub_zero(ty: NumTy, a: &Operand, b: &Operand) -> Option<Term>
    ensures { IfSome result (PairEquals Sub ty a.now b.now) }
{
    if b.is_number(0) {
        Some(Term::Integer(PrimOp::Pad, a.read, u128::from(ty.width)))
    } else {
        None
    }
}

/// sub(x, x) = 0
fn sub_itself(ty: NumTy, a: &Operand, b: &Operand) -> Option<Term>
    ensures { IfSome result (PairEquals Sub ty a.now b.now) }
{
    if a.is_same(b) {
        Some(Term::Number(0))
    } else {
        None
    }
}

/// mul(x, 0) = 0
pub fn mul_zero(ty: NumTy, a: &Operand, b: &Operand) -> Option<Term>
    ensures { IfSome result (PairEquals Mul ty a.now b.now) }
{
    if b.is_number(0) {
        Some(Term::Number(0))
    } else {
        None
    }
}

/// div(x, 0) = 0
pub fn div_zero(ty: NumTy, a: &Operand, b: &Operand) -> Option<Term>
    ensures { IfSome result (PairEquals Div ty a.now b.now) }
{
    if b.is_number(0) {
        Some(Term::Number(0))
    } else {
        None
    }
}

/// rem(x, 0) = 0
pub fn rem_zero(ty: NumTy, a: &Operand, b: &Operand) -> Option<Term>
    ensures { IfSome result (PairEquals Rem ty a.now b.now) }
{
    if b.is_number(0) {
        Some(Term::Number(0))
    } else {
        None
    }
}

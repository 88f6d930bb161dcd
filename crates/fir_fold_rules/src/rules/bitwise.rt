//! Rules of `and`, `or` and `xor`.

ghost use Rattle.std.specs.Prelude.{IfSome};
ghost use Rattle.fir_bits.specs.declared.operators.PrimOp.TheVariants.{And, Or, Xor};
ghost use Rattle.fir_fold_rules.specs.working.Rules.{PairEquals};

use crate::operand::Operand;
use crate::rules::first_of;
use crate::term::Term;
use fir_bits::{NumTy, PrimOp};

/// The rules of `and`.
pub fn and_rules(ty: NumTy, a: &Operand, b: &Operand) -> Option<Term>
    ensures { IfSome result (PairEquals And ty a.now b.now) }
{
    first_of!(
        and_zero(ty, a, b),
        and_ones(ty, a, b),
        and_itself(ty, a, b),
    )
}

/// and(x, 0) = 0
fn and_zero(ty: NumTy, a: &Operand, b: &Operand) -> Option<Term>
    ensures { IfSome result (PairEquals And ty a.now b.now) }
{
    if b.is_number(0) {
        Some(Term::Number(0))
    } else {
        None
    }
}

/// and(x, 1..1) = pad(x, w)
fn and_ones(ty: NumTy, a: &Operand, b: &Operand) -> Option<Term>
    ensures { IfSome result (PairEquals And ty a.now b.now) }
{
    if b.is_ones(ty.width) {
        Some(Term::Integer(PrimOp::Pad, a.read, u128::from(ty.width)))
    } else {
        None
    }
}

/// and(x, x) = asUInt(x)
fn and_itself(ty: NumTy, a: &Operand, b: &Operand) -> Option<Term>
    ensures { IfSome result (PairEquals And ty a.now b.now) }
{
    if a.is_same(b) {
        Some(Term::Single(PrimOp::AsUInt, a.read))
    } else {
        None
    }
}

/// The rules of `or`.
pub fn or_rules(ty: NumTy, a: &Operand, b: &Operand) -> Option<Term>
    ensures { IfSome result (PairEquals Or ty a.now b.now) }
{
    first_of!(or_zero(ty, a, b), or_ones(ty, a, b), or_itself(ty, a, b),)
}

/// or(x, 0) = pad(x, w)
fn or_zero(ty: NumTy, a: &Operand, b: &Operand) -> Option<Term>
    ensures { IfSome result (PairEquals Or ty a.now b.now) }
{
    if b.is_number(0) {
        Some(Term::Integer(PrimOp::Pad, a.read, u128::from(ty.width)))
    } else {
        None
    }
}

/// or(x, 1..1) = 1..1
fn or_ones(ty: NumTy, a: &Operand, b: &Operand) -> Option<Term>
    ensures { IfSome result (PairEquals Or ty a.now b.now) }
{
    if b.is_ones(ty.width) {
        Some(Term::Single(PrimOp::AsUInt, b.read))
    } else {
        None
    }
}

/// or(x, x) = asUInt(x)
fn or_itself(ty: NumTy, a: &Operand, b: &Operand) -> Option<Term>
    ensures { IfSome result (PairEquals Or ty a.now b.now) }
{
    if a.is_same(b) {
        Some(Term::Single(PrimOp::AsUInt, a.read))
    } else {
        None
    }
}

/// The rules of `xor`.
pub fn xor_rules(ty: NumTy, a: &Operand, b: &Operand) -> Option<Term>
    ensures { IfSome result (PairEquals Xor ty a.now b.now) }
{
    first_of!(
        xor_zero(ty, a, b),
        xor_ones(ty, a, b),
        xor_itself(ty, a, b),
    )
}

/// xor(x, 0) = pad(x, w)
fn xor_zero(ty: NumTy, a: &Operand, b: &Operand) -> Option<Term>
    ensures { IfSome result (PairEquals Xor ty a.now b.now) }
{
    if b.is_number(0) {
        Some(Term::Integer(PrimOp::Pad, a.read, u128::from(ty.width)))
    } else {
        None
    }
}

/// xor(x, 1..1) = not(x)
fn xor_ones(ty: NumTy, a: &Operand, b: &Operand) -> Option<Term>
    ensures { IfSome result (PairEquals Xor ty a.now b.now) }
{
    if b.is_ones(ty.width) {
        Some(Term::Single(PrimOp::Not, a.read))
    } else {
        None
    }
}

/// xor(x, x) = 0
fn xor_itself(ty: NumTy, a: &Operand, b: &Operand) -> Option<Term>
    ensures { IfSome result (PairEquals Xor ty a.now b.now) }
{
    if a.is_same(b) {
        Some(Term::Number(0))
    } else {
        None
    }
}

//! Rules of comparisons.

ghost use Rattle.std.specs.Prelude.{IfSome};
ghost use Rattle.fir_bits.specs.declared.operators.PrimOp.TheVariants.{Eq, Geq, Gt, Leq, Lt, Neq};
ghost use Rattle.fir_fold_rules.specs.working.Rules.{PairEquals};

use crate::operand::Operand;
use crate::rules::first_of;
use crate::term::Term;
use fir_bits::{NumTy, PrimOp};

/// The rules of `eq`.
pub fn eq_rules(ty: NumTy, a: &Operand, b: &Operand) -> Option<Term>
    ensures { IfSome result (PairEquals Eq ty a.now b.now) }
{
    first_of!(eq_itself(ty, a, b), eq_one(ty, a, b), eq_zero(ty, a, b),)
}

/// eq(x, x) = 1
fn eq_itself(ty: NumTy, a: &Operand, b: &Operand) -> Option<Term>
    ensures { IfSome result (PairEquals Eq ty a.now b.now) }
{
    if a.is_same(b) {
        Some(Term::Number(1))
    } else {
        None
    }
}

/// eq(x, 1) = x, of one bit
fn eq_one(ty: NumTy, a: &Operand, b: &Operand) -> Option<Term>
    ensures { IfSome result (PairEquals Eq ty a.now b.now) }
{
    if a.is_bit() && b.is_number(1) {
        Some(Term::Read(a.read))
    } else {
        None
    }
}

/// eq(x, 0) = not(x), of one bit
fn eq_zero(ty: NumTy, a: &Operand, b: &Operand) -> Option<Term>
    ensures { IfSome result (PairEquals Eq ty a.now b.now) }
{
    if a.is_bit() && b.is_number(0) {
        Some(Term::Single(PrimOp::Not, a.read))
    } else {
        None
    }
}

/// The rules of `neq`.
pub fn neq_rules(ty: NumTy, a: &Operand, b: &Operand) -> Option<Term>
    ensures { IfSome result (PairEquals Neq ty a.now b.now) }
{
    first_of!(neq_itself(ty, a, b), neq_zero(ty, a, b), neq_one(ty, a, b),)
}

/// neq(x, x) = 0
fn neq_itself(ty: NumTy, a: &Operand, b: &Operand) -> Option<Term>
    ensures { IfSome result (PairEquals Neq ty a.now b.now) }
{
    if a.is_same(b) {
        Some(Term::Number(0))
    } else {
        None
    }
}

/// neq(x, 0) = x, of one bit
fn neq_zero(ty: NumTy, a: &Operand, b: &Operand) -> Option<Term>
    ensures { IfSome result (PairEquals Neq ty a.now b.now) }
{
    if a.is_bit() && b.is_number(0) {
        Some(Term::Read(a.read))
    } else {
        None
    }
}

/// neq(x, 1) = not(x), of one bit
fn neq_one(ty: NumTy, a: &Operand, b: &Operand) -> Option<Term>
    ensures { IfSome result (PairEquals Neq ty a.now b.now) }
{
    if a.is_bit() && b.is_number(1) {
        Some(Term::Single(PrimOp::Not, a.read))
    } else {
        None
    }
}

/// The rules of `lt`.
pub fn lt_rules(ty: NumTy, a: &Operand, b: &Operand) -> Option<Term>
    ensures { IfSome result (PairEquals Lt ty a.now b.now) }
{
    first_of!(lt_itself(ty, a, b), lt_zero(ty, a, b),)
}

/// lt(x, x) = 0
fn lt_itself(ty: NumTy, a: &Operand, b: &Operand) -> Option<Term>
    ensures { IfSome result (PairEquals Lt ty a.now b.now) }
{
    if a.is_same(b) {
        Some(Term::Number(0))
    } else {
        None
    }
}

/// lt(x, 0) = 0, of a UInt
fn lt_zero(ty: NumTy, a: &Operand, b: &Operand) -> Option<Term>
    ensures { IfSome result (PairEquals Lt ty a.now b.now) }
{
    if a.is_unsigned() && b.is_number(0) {
        Some(Term::Number(0))
    } else {
        None
    }
}

/// The rules of `geq`.
pub fn geq_rules(ty: NumTy, a: &Operand, b: &Operand) -> Option<Term>
    ensures { IfSome result (PairEquals Geq ty a.now b.now) }
{
    first_of!(geq_itself(ty, a, b), geq_zero(ty, a, b),)
}

/// geq(x, x) = 1
fn geq_itself(ty: NumTy, a: &Operand, b: &Operand) -> Option<Term>
    ensures { IfSome result (PairEquals Geq ty a.now b.now) }
{
    if a.is_same(b) {
        Some(Term::Number(1))
    } else {
        None
    }
}

/// geq(x, 0) = 1, of a UInt
fn geq_zero(ty: NumTy, a: &Operand, b: &Operand) -> Option<Term>
    ensures { IfSome result (PairEquals Geq ty a.now b.now) }
{
    if a.is_unsigned() && b.is_number(0) {
        Some(Term::Number(1))
    } else {
        None
    }
}

/// leq(x, x) = 1
pub fn leq_itself(ty: NumTy, a: &Operand, b: &Operand) -> Option<Term>
    ensures { IfSome result (PairEquals Leq ty a.now b.now) }
{
    if a.is_same(b) {
        Some(Term::Number(1))
    } else {
        None
    }
}

/// gt(x, x) = 0
pub fn gt_itself(ty: NumTy, a: &Operand, b: &Operand) -> Option<Term>
    ensures { IfSome result (PairEquals Gt ty a.now b.now) }
{
    if a.is_same(b) {
        Some(Term::Number(0))
    } else {
        None
    }
}

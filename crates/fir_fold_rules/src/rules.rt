//! The rules, one behind the other, by what a term is.

ghost use Rattle.std.specs.Prelude.{[], IfSome};
ghost use Rattle.fir_net.specs.working.IsNet.{AreNodes};
ghost use Rattle.fir_fold_rules.specs.working.Rules.{IntegerEquals, PairEquals, Proposes, RangeEquals, SingleEquals};
ghost use Rattle.fir_fold_rules.specs.working.Terms.{IsTerm};

/// The first of these answers that is one.
macro_rules! first_of {
    ($last:expr $(,)?) => { $last };
    ($first:expr, $($rest:expr),+ $(,)?) => {
        match $first {
            Some(term) => Some(term),
            None => first_of!($($rest),+),
        }
    };
}

mod arithmetic;
mod bitwise;
mod choices;
mod comparisons;
mod conversions;
mod slices;

use crate::operand::Operand;
use crate::rules::arithmetic::{add_zero, commuted, div_zero, mul_zero, rem_zero, sub_rules};
use crate::rules::bitwise::{and_rules, or_rules, xor_rules};
use crate::rules::choices::mux_rules;
use crate::rules::comparisons::{eq_rules, geq_rules, gt_itself, leq_itself, lt_rules, neq_rules};
use crate::rules::conversions::{
    andr_bit, cvt_none, not_twice, orr_bit, pad_rules, shl_none, signed_rules, unsigned_rules,
    xorr_bit,
};
use crate::rules::slices::{bits_rules, cat_rules, head_bits, shr_bits, tail_bits};
use crate::term::Term;
use fir_bits::{NumTy, PrimOp};
use fir_net::{Leaf, Node};
pub(crate) use first_of;
use indexmap::IndexSet;

/// What a rule gives for a term. It may stand in the term's place if it has the term's type.
pub fn proposed(leaves: &[Leaf], nodes: &IndexSet<Node>, ty: NumTy, term: &Term) -> Option<Term>
    requires are { AreNodes leaves.now [] nodes.now.keys }
    requires is { IsTerm leaves.now nodes.now.keys ty term.now }
    ensures { IfSome result (Proposes leaves.now nodes.now.keys ty term.now) }
{
    match term {
        Term::Pair(op, a, b) => {
            let first = Operand::of(leaves, nodes, a);
            let second = Operand::of(leaves, nodes, b);
            pair_rules(*op, ty, &first, &second)
        }
        Term::Mux(c, a, b) => {
            let condition = Operand::of(leaves, nodes, c);
            let first = Operand::of(leaves, nodes, a);
            let second = Operand::of(leaves, nodes, b);
            mux_rules(ty, &condition, &first, &second)
        }
        Term::Single(op, a) => {
            let operand = Operand::of(leaves, nodes, a);
            single_rules(*op, ty, &operand)
        }
        Term::Integer(op, a, n) => {
            let operand = Operand::of(leaves, nodes, a);
            integer_rules(*op, ty, &operand, *n)
        }
        Term::Range(op, a, n, m) => {
            let operand = Operand::of(leaves, nodes, a);
            range_rules(*op, ty, &operand, *n, *m)
        }
        Term::Read(_) | Term::Number(_) => None,
    }
}

/// The rules of the operation on an operand and two integers.
fn range_rules(op: PrimOp, ty: NumTy, a: &Operand, n: u128, m: u128) -> Option<Term>
    ensures { IfSome result (RangeEquals op ty a.now n m) }
{
    match op {
        PrimOp::Bits => bits_rules(ty, a, n, m),
        _ => None,
    }
}

/// The rules of each operation on one operand.
fn single_rules(op: PrimOp, ty: NumTy, a: &Operand) -> Option<Term>
    ensures { IfSome result (SingleEquals op ty a.now) }
{
    match op {
        PrimOp::AsUInt => unsigned_rules(ty, a),
        PrimOp::AsSInt => signed_rules(ty, a),
        PrimOp::Cvt => cvt_none(ty, a),
        PrimOp::Andr => andr_bit(ty, a),
        PrimOp::Orr => orr_bit(ty, a),
        PrimOp::Xorr => xorr_bit(ty, a),
        PrimOp::Not => not_twice(ty, a),
        _ => None,
    }
}

/// The rules of each operation on an operand and an integer.
fn integer_rules(op: PrimOp, ty: NumTy, a: &Operand, n: u128) -> Option<Term>
    ensures { IfSome result (IntegerEquals op ty a.now n) }
{
    match op {
        PrimOp::Pad => pad_rules(ty, a, n),
        PrimOp::Tail => tail_bits(ty, a, n),
        PrimOp::Head => head_bits(ty, a, n),
        PrimOp::Shr => shr_bits(ty, a, n),
        PrimOp::Shl => shl_none(ty, a, n),
        _ => None,
    }
}

/// The operands turned where the first one alone is a literal, else the operation's own rules.
fn pair_rules(op: PrimOp, ty: NumTy, a: &Operand, b: &Operand) -> Option<Term>
    ensures { IfSome result (PairEquals op ty a.now b.now) }
{
    first_of!(commuted(op, ty, a, b), pair_rules_of(op, ty, a, b))
}

/// The rules of each operation on two operands.
fn pair_rules_of(op: PrimOp, ty: NumTy, a: &Operand, b: &Operand) -> Option<Term>
    ensures { IfSome result (PairEquals op ty a.now b.now) }
{
    match op {
        PrimOp::And => and_rules(ty, a, b),
        PrimOp::Or => or_rules(ty, a, b),
        PrimOp::Xor => xor_rules(ty, a, b),
        PrimOp::Cat => cat_rules(ty, a, b),
        PrimOp::Eq => eq_rules(ty, a, b),
        PrimOp::Neq => neq_rules(ty, a, b),
        PrimOp::Lt => lt_rules(ty, a, b),
        PrimOp::Geq => geq_rules(ty, a, b),
        PrimOp::Leq => leq_itself(ty, a, b),
        PrimOp::Gt => gt_itself(ty, a, b),
        PrimOp::Add => add_zero(ty, a, b),
        PrimOp::Sub => sub_rules(ty, a, b),
        PrimOp::Mul => mul_zero(ty, a, b),
        PrimOp::Div => div_zero(ty, a, b),
        PrimOp::Rem => rem_zero(ty, a, b),
        _ => None,
    }
}

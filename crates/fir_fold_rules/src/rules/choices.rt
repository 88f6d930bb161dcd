//! Rules of muxes.

ghost use Rattle.std.specs.Prelude.{IfSome};
ghost use Rattle.fir_fold_rules.specs.working.Rules.{MuxEquals};

use crate::operand::{Operand, is_same_read};
use crate::rules::first_of;
use crate::term::Term;
use fir_bits::{NumTy, PrimOp};

/// The rules of muxes.
pub fn mux_rules(ty: NumTy, c: &Operand, a: &Operand, b: &Operand) -> Option<Term>
    ensures { IfSome result (MuxEquals ty c.now a.now b.now) }
{
    first_of!(
        mux_same(ty, c, a, b),
        mux_bit(ty, c, a, b),
        mux_turned(ty, c, a, b),
        mux_first(ty, c, a, b),
        mux_second(ty, c, a, b),
        mux_not(ty, c, a, b),
    )
}

/// mux(c, x, x) = pad(x, w)
fn mux_same(ty: NumTy, c: &Operand, a: &Operand, b: &Operand) -> Option<Term>
    ensures { IfSome result (MuxEquals ty c.now a.now b.now) }
{
    if a.is_same(b) {
        Some(Term::Integer(PrimOp::Pad, a.read, u128::from(ty.width)))
    } else {
        None
    }
}

/// mux(c, 1, 0) = c
fn mux_bit(ty: NumTy, c: &Operand, a: &Operand, b: &Operand) -> Option<Term>
    ensures { IfSome result (MuxEquals ty c.now a.now b.now) }
{
    if a.is_number(1) && b.is_number(0) {
        Some(Term::Read(c.read))
    } else {
        None
    }
}

/// mux(c, 0, 1) = not(c)
fn mux_turned(ty: NumTy, c: &Operand, a: &Operand, b: &Operand) -> Option<Term>
    ensures { IfSome result (MuxEquals ty c.now a.now b.now) }
{
    if a.is_number(0) && b.is_number(1) {
        Some(Term::Single(PrimOp::Not, c.read))
    } else {
        None
    }
}

/// mux(c, mux(c, x, y), z) = mux(c, x, z)
fn mux_first(ty: NumTy, c: &Operand, a: &Operand, b: &Operand) -> Option<Term>
    ensures { IfSome result (MuxEquals ty c.now a.now b.now) }
{
    match &a.term {
        Term::Mux(d, x, _) if is_same_read(d, &c.read) => Some(Term::Mux(c.read, *x, b.read)),
        _ => None,
    }
}

/// mux(c, x, mux(c, y, z)) = mux(c, x, z)
fn mux_second(ty: NumTy, c: &Operand, a: &Operand, b: &Operand) -> Option<Term>
    ensures { IfSome result (MuxEquals ty c.now a.now b.now) }
{
    match &b.term {
        Term::Mux(d, _, y) if is_same_read(d, &c.read) => Some(Term::Mux(c.read, a.read, *y)),
        _ => None,
    }
}

/// mux(not(c), x, y) = mux(c, y, x)
fn mux_not(ty: NumTy, c: &Operand, a: &Operand, b: &Operand) -> Option<Term>
    ensures { IfSome result (MuxEquals ty c.now a.now b.now) }
{
    let d = c.single(PrimOp::Not)?;
    Some(Term::Mux(*d, b.read, a.read))
}

//! Bounds of unknown widths, each made of one operation on other unknowns.

ghost use Rattle.std.specs.Prelude.{◌≡◌, length};
ghost use Rattle.fir_least_widths.specs.working.Bounds.{TermWithin, term_width};
ghost use Rattle.fir_meaning.specs.working.AssignedWidths.{assigned};

use fir_bits::{PrimOp, counted_width};

/// The width that stands for all that is over 128 bits.
pub const OVER: u32 = 129;

/// A width in bits, made of the widths of unknowns, which are told by their numbers from 0 on. An
/// operation is one of the operator table (FIRRTL spec, "Primitive Operations"), and its width is
/// over where an operand is.
#[derive(Clone, Copy)]
pub enum Term {
    /// So many bits.
    Known(u32),
    /// As an unknown.
    Same(usize),
    /// Of an operation with one operand: the operation, whether the operand is an SInt, the operand,
    /// and the two integers, 0 where the operation has fewer.
    Single(PrimOp, bool, usize, u128, u128),
    /// Of an operation with two operands: the operation, whether they are SInts, and the operands.
    Pair(PrimOp, bool, usize, usize),
    /// The greater of two, as of the arms of a mux.
    Greater(usize, usize),
    /// As the second, and over where the first, a condition, is over.
    Guarded(usize, usize),
}

/// An unknown is at least as wide as a term.
#[derive(Clone, Copy)]
pub struct Bound {
    pub unknown: usize,
    pub term: Term,
}

/// The width of a term, where the unknowns have these widths.
pub(crate) fn term_width(term: &Term, widths: &[u32]) -> u32
    requires { TermWithin term.now (length widths.now) }
    ensures { result ≡ term_width term.now (assigned widths.now) }
{
    match *term {
        Term::Known(width) => width.min(OVER),
        Term::Same(a) => widths[a].min(OVER),
        Term::Single(op, signed, a, n, m) => counted_width(op, signed, widths[a], 0, n, m),
        Term::Pair(op, signed, a, b) => counted_width(op, signed, widths[a], widths[b], 0, 0),
        Term::Greater(a, b) => widths[a].max(widths[b]).min(OVER),
        Term::Guarded(condition, a) => {
            if widths[condition] < OVER {
                widths[a].min(OVER)
            } else {
                OVER
            }
        }
    }
}

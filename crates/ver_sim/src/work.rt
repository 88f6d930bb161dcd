//! What processes compute, with nets and words by number (IEEE 1364-2005, 5.1, 5.5).

ghost use Rattle.std.specs.Prelude.{◌≡◌, ◌+◌, ◌-◌, ◌/◌, ◌%◌, ◌^◌, ◌≤◌, min};
ghost use Rattle.ver_ast.specs.SideValues.{unary_value, over, binary_value};
ghost use Rattle.ver_sim.specs.working.Works.{work_number};

use crate::numbers::{at, low_bits, shifted_down, shifted_up, word_at};
use crate::operand::{Operand, number_of};
use crate::signed::{signed, signed_shift};
use fir_bits::mask;
use ver_ast::{BinaryOp, SignedOp, UnaryOp};

/// What is computed of operands. A width, in bits, counts as 128 where it is more.
pub enum Work {
    /// The operand.
    Show(Operand),
    /// An operator on an operand of that width.
    Unary(UnaryOp, u32, Operand),
    /// An operator at that width.
    Binary(BinaryOp, u32, Operand, Operand),
    /// An operator on operands of that width, which are read as signed.
    Signed(SignedOp, u32, Operand, Operand),
    /// The first, of the first width, read as signed and shifted down by the second, at the second width.
    SignedShift(u32, u32, Operand, Operand),
    /// The second where the first is 1, else the third.
    Choose(Operand, Operand, Operand),
    /// The word of that index among the `depth` words from `base` on.
    Word {
        base: usize,
        depth: usize,
        index: Operand,
    },
    /// The constant where the net is 1, else the word.
    Reset {
        reset: usize,
        value: u128,
        word: usize,
    },
}

// Not derived, so that a drop is a call, which is proved once.
impl Drop for Work {
    fn drop(self) {
        match self {
            Work::Show(_)
            | Work::Unary(_, _, _)
            | Work::Binary(_, _, _, _)
            | Work::Signed(_, _, _, _)
            | Work::SignedShift(_, _, _, _)
            | Work::Choose(_, _, _)
            | Work::Word {
                base: _,
                depth: _,
                index: _,
            }
            | Work::Reset {
                reset: _,
                value: _,
                word: _,
            } => {}
        }
    }
}

/// A width that counts as 128 where it is more.
#[inline]
fn narrow(width: u32) -> u32
    ensures value { result ≡ min width 128 }
    ensures narrow { result ≤ 128 }
{
    width.min(128)
}

/// What an operator gives of a number of that width.
fn unary(op: UnaryOp, width: u32, number: u128) -> u128
    requires { width ≤ 128 }
    ensures { result ≡ unary_value op width number }
{
    match op {
        UnaryOp::Not => mask(width).saturating_sub(number),
        UnaryOp::And => u128::from(number == mask(width)),
        UnaryOp::Or => u128::from(number != 0),
        UnaryOp::Xor => u128::from(number.count_ones() % 2),
    }
}

/// The difference at a width.
fn difference(width: u32, first: u128, second: u128) -> u128
    requires { width ≤ 128 }
    ensures { result ≡ (first + (2 ^ width - second)) % 2 ^ width }
{
    let greatest = mask(width);
    if second > greatest {
        return low_bits(first, width);
    }
    low_bits(first.wrapping_add(greatest - second).wrapping_add(1), width)
}

/// The quotient; there is none by 0.
fn quotient(first: u128, second: u128) -> Option<u128>
    ensures { result ≡ over second (first / second) }
{
    if second == 0 {
        None
    } else {
        Some(first / second)
    }
}

/// What a division leaves; there is none by 0.
fn remainder(first: u128, second: u128) -> Option<u128>
    ensures { result ≡ over second (first % second) }
{
    if second == 0 {
        None
    } else {
        Some(first % second)
    }
}

/// What an operator gives of two numbers at a width, where it gives something.
fn binary(op: BinaryOp, width: u32, a: u128, b: u128) -> Option<u128>
    requires { width ≤ 128 }
    ensures { result ≡ binary_value op width a b }
{
    match op {
        BinaryOp::Add => Some(low_bits(a.wrapping_add(b), width)),
        BinaryOp::Sub => Some(difference(width, a, b)),
        BinaryOp::Mul => Some(low_bits(a.wrapping_mul(b), width)),
        BinaryOp::Div => quotient(a, b),
        BinaryOp::Rem => remainder(a, b),
        BinaryOp::And => Some(a & b),
        BinaryOp::Or => Some(a | b),
        BinaryOp::Xor => Some(a ^ b),
        BinaryOp::Shl => Some(low_bits(shifted_up(a, b), width)),
        BinaryOp::Shr => Some(shifted_down(a, b)),
        BinaryOp::Eq => Some(u128::from(a == b)),
        BinaryOp::Neq => Some(u128::from(a != b)),
        BinaryOp::Lt => Some(u128::from(a < b)),
        BinaryOp::Leq => Some(u128::from(a <= b)),
        BinaryOp::Gt => Some(u128::from(a > b)),
        BinaryOp::Geq => Some(u128::from(a >= b)),
    }
}

/// The value that a work gives, where it gives one.
pub fn value_of(work: &Work, state: &[u128], values: &[u128]) -> Option<u128>
    ensures { result ≡ work_number work.now state.now values.now }
{
    match work {
        Work::Show(a) => Some(number_of(a, values)),
        Work::Unary(op, width, a) => Some(unary(*op, narrow(*width), number_of(a, values))),
        Work::Binary(op, width, a, b) => binary(
            *op,
            narrow(*width),
            number_of(a, values),
            number_of(b, values),
        ),
        Work::Signed(op, width, a, b) => signed(
            *op,
            narrow(*width),
            number_of(a, values),
            number_of(b, values),
        ),
        Work::SignedShift(from, to, a, b) => Some(signed_shift(
            narrow(*from),
            narrow(*to),
            number_of(a, values),
            number_of(b, values),
        )),
        Work::Choose(condition, a, b) => Some(if number_of(condition, values) == 1 {
            number_of(a, values)
        } else {
            number_of(b, values)
        }),
        Work::Word { base, depth, index } => word_at(
            state,
            *base,
            *depth,
            number_of(index, values),
        ),
        Work::Reset { reset, value, word } => Some(if at(values, *reset) == 1 {
            *value
        } else {
            at(state, *word)
        }),
    }
}

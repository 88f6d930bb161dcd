//! The type of an operation's result.

ghost use Rattle.std.specs.Prelude.{◌≡◌, ◌+◌, ◌-◌, ◌^◌, ◌<◌, ◌≤◌, min, slice_index, slice_index_or};
ghost use Rattle.fir_bits.specs.Forms.{form_of, has_counts, has_kinds, takes, first_type, second_type};
ghost use Rattle.fir_bits.specs.Widths.{counted_width, width_of};
ghost use Rattle.fir_bits.specs.Types.{signed_of, is_legal};
ghost use Rattle.fir_bits.specs.working.Types.{typed_at, typed};

use crate::bits::mask;
use crate::operators::{Form, PrimOp, operators};
use thiserror::Error;

/// The type of an operand or of a result: its kind, SInt or UInt, and its width in bits.
#[derive(Clone, Copy, PartialEq, Eq)]
pub struct NumTy {
    pub signed: bool,
    pub width: u32,
}

/// Why an operation has no result, in the order in which the causes count.
#[derive(Clone, Copy, Debug, Error)]
pub enum OpFault {
    /// The kinds of the operands, or the number of operands or integers, are not the operation's.
    #[error("the operands or integers are not those of the operation")]
    Kinds,
    /// An operand or the result has more than 128 bits.
    #[error("a width is over 128 bits")]
    Over,
    /// The integers, or the operand's width, are not ones that the operation may have.
    #[error("the integers do not fit the operand")]
    Legality,
}

/// The greatest width of a value, in bits.
const WIDEST: u32 = 128;

/// The type of what is not there: a UInt of no bits.
pub const NO_TYPE: NumTy = NumTy {
    signed: false,
    width: 0,
};

macro_rules! forms {
    ($op:expr; $($name:ident: $word:literal, $form:ident, $signed:expr, $width:expr, $value:expr;)*) => {
        match $op { $(PrimOp::$name => Form::$form,)* }
    };
}

macro_rules! kinds {
    ($op:expr; $($name:ident: $word:literal, $form:ident, $signed:expr, $width:expr, $value:expr;)*) => {
        match $op { $(PrimOp::$name => $signed,)* }
    };
}

macro_rules! widths {
    ($op:expr; $($name:ident: $word:literal, $form:ident, $signed:expr, $width:expr, $value:expr;)*) => {
        match $op { $(PrimOp::$name => $width,)* }
    };
}

impl Form {
    /// Whether so many operands and integers are those of the form.
    pub fn has_counts(self, operands: usize, integers: usize) -> bool
        ensures { result ≡ has_counts self operands integers }
    {
        let counts = match self {
            Form::Pair | Form::Shift => (2, 0),
            Form::Single => (1, 0),
            Form::WithInteger => (1, 1),
            Form::WithRange => (1, 2),
        };
        counts == (operands, integers)
    }
}

impl PrimOp {
    /// What the operation takes.
    pub fn form(self) -> Form
        ensures { result ≡ form_of self }
    {
        operators!(forms, self, signed, w, v, n, m, r, a, b)
    }

    /// Whether the operation's result is an SInt, where the first operand is one or not.
    pub fn is_signed(self, signed: bool) -> bool
        ensures { result ≡ signed_of self signed }
    {
        operators!(kinds, self, signed, w, v, n, m, r, a, b)
    }

    /// Whether the integers, 0 where there are fewer than two, may stand beside a first operand of the
    /// width, in bits (FIRRTL spec, "Primitive Operations").
    pub fn is_legal(self, width: u32, n: u128, m: u128) -> bool
        ensures { result ≡ is_legal self width n m }
    {
        match self {
            PrimOp::Bits => m <= n && n < u128::from(width),
            PrimOp::Head | PrimOp::Tail => n <= u128::from(width),
            PrimOp::AsAsyncReset => width == 1,
            _ => true,
        }
    }
}

/// The integer, or 129 where it is greater.
fn capped(n: u128) -> u32
    ensures { result ≡ min n 129 }
{
    n.min(129) as u32
}

/// How many bits there are from bit `hi` down to bit `lo`, or 129 where they are more.
fn span(hi: u128, lo: u128) -> u32
    ensures { result ≡ min (hi + 1 - lo) 129 }
{
    if lo > hi {
        0
    } else {
        (capped(hi - lo) + 1).min(129)
    }
}

/// The result's width, or 129 where it is greater.
pub(crate) fn width(op: PrimOp, signed: bool, w: u32, v: u32, n: u128, m: u128) -> u32
    requires first { w ≤ 128 }
    requires second { v ≤ 128 }
    ensures { result ≡ min (width_of op signed w v n m) 129 }
{
    let width: u32 = operators!(widths, op, signed, w, v, n, m, r, a, b);
    width.min(129)
}

/// The width of an operation's result, in bits, from those of its operands, `w` and `v`, and its integers,
/// `n` and `m`; `signed` tells whether the first operand is an SInt, and what is not there is 0. Where an
/// operand or the result has more than 128 bits it is 129 (FIRRTL spec, "Primitive Operations").
pub fn counted_width(op: PrimOp, signed: bool, w: u32, v: u32, n: u128, m: u128) -> u32
    ensures { result ≡ counted_width op signed w v n m }
{
    if w > WIDEST || v > WIDEST {
        return WIDEST + 1;
    }
    width(op, signed, w, v, n, m)
}

/// The entry at `i`, or `none`.
pub(crate) fn entry<'a, T>(entries: &'a [T], i: usize, none: &'a T) -> &'a T
    ensures { result.now ≡ slice_index_or entries.now i none.now }
{
    if i < entries.len() { &entries[i] } else { none }
}

/// Whether operands of these types are of the form's kinds: two of one signedness, and an amount of a
/// shift a UInt (FIRRTL spec, "Primitive Operations").
pub fn has_kinds(form: Form, args: &[NumTy]) -> bool
    ensures { result ≡ has_kinds form args.now }
{
    let (a, b) = (entry(args, 0, &NO_TYPE), entry(args, 1, &NO_TYPE));
    match form {
        Form::Pair => a.signed == b.signed,
        Form::Shift => !b.signed,
        Form::Single | Form::WithInteger | Form::WithRange => true,
    }
}

/// Whether the operands and integers are those of the form.
fn has_form(form: Form, args: &[NumTy], consts: &[u128]) -> bool
    ensures { result ≡ takes form args.now consts.now }
{
    form.has_counts(args.len(), consts.len()) && has_kinds(form, args)
}

/// The type of the result, where the kinds are those of the operation.
fn type_at(op: PrimOp, a: NumTy, b: NumTy, n: u128, m: u128) -> Result<NumTy, OpFault>
    ensures { result ≡ typed_at op a b n m }
{
    if a.width > WIDEST || b.width > WIDEST {
        return Err(OpFault::Over);
    }
    let width = width(op, a.signed, a.width, b.width, n, m);
    if width > WIDEST {
        return Err(OpFault::Over);
    }
    if !op.is_legal(a.width, n, m) {
        return Err(OpFault::Legality);
    }
    Ok(NumTy {
        signed: op.is_signed(a.signed),
        width,
    })
}

/// The type of the operation's result on operands of these types and these integers.
///
/// A reset counts as a UInt of width 1. `Kinds` comes first, then `Over`, then `Legality`.
/// For `Over` what is illegal has a width too: `tail` of more bits than the operand has 0 bits,
/// `head` of `n` has `n`, and `bits` has `hi - lo + 1`, or 0 where `lo` is above `hi`
/// (FIRRTL spec, "Primitive Operations").
pub fn result_type(op: PrimOp, args: &[NumTy], consts: &[u128]) -> Result<NumTy, OpFault>
    ensures { result ≡ typed op args.now consts.now }
{
    if !has_form(op.form(), args, consts) {
        return Err(OpFault::Kinds);
    }
    let (a, b) = (entry(args, 0, &NO_TYPE), entry(args, 1, &NO_TYPE));
    let (n, m) = (entry(consts, 0, &0), entry(consts, 1, &0));
    type_at(op, *a, *b, *n, *m)
}

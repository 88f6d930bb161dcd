//! The primitive operations, and the one list of how each is spelled and what it takes and gives.

/// A primitive operation (FIRRTL spec, "Primitive Operations").
#[derive(Clone, Copy, PartialEq, Eq)]
pub enum PrimOp {
    /// `add`: the sum.
    Add,
    /// `sub`: the difference.
    Sub,
    /// `mul`: the product.
    Mul,
    /// `div`: the quotient towards zero.
    Div,
    /// `rem`: the remainder, with the sign of the first operand.
    Rem,
    /// `lt`: whether the first operand is below the second.
    Lt,
    /// `leq`: whether it is the second or below it.
    Leq,
    /// `gt`: whether it is above the second.
    Gt,
    /// `geq`: whether it is the second or above it.
    Geq,
    /// `eq`: whether the operands stand for one number.
    Eq,
    /// `neq`: whether they do not.
    Neq,
    /// `pad`: the operand at a width of at least `n` bits.
    Pad,
    /// `shl`: times two to the power of `n`.
    Shl,
    /// `shr`: divided by two to the power of `n`, rounded down.
    Shr,
    /// `dshl`: times two to the power of the second operand.
    Dshl,
    /// `dshr`: divided by two to the power of the second operand, rounded down.
    Dshr,
    /// `cvt`: the number as an SInt.
    Cvt,
    /// `neg`: the number's negative.
    Neg,
    /// `not`: each bit turned.
    Not,
    /// `and`, bit by bit.
    And,
    /// `or`, bit by bit.
    Or,
    /// `xor`, bit by bit.
    Xor,
    /// `andr`: whether each bit is 1.
    Andr,
    /// `orr`: whether some bit is 1.
    Orr,
    /// `xorr`: whether an odd number of bits is 1.
    Xorr,
    /// `cat`: the bits of both operands, the first one's above.
    Cat,
    /// `bits`: the bits from `hi` down to `lo`.
    Bits,
    /// `head`: the high `n` bits.
    Head,
    /// `tail`: all but the high `n` bits.
    Tail,
    /// `asUInt`: the bits as a UInt.
    AsUInt,
    /// `asSInt`: the bits as an SInt.
    AsSInt,
    /// `asAsyncReset`: the one bit as an asynchronous reset.
    AsAsyncReset,
}

/// What operands and integers an operation takes.
#[derive(Clone, Copy)]
pub enum Form {
    /// Two operands of one signedness.
    Pair,
    /// An operand and a UInt by which it is shifted.
    Shift,
    /// One operand.
    Single,
    /// One operand and one integer.
    WithInteger,
    /// One operand and two integers.
    WithRange,
}

/// Each operation with its word, what it takes, whether its result is an SInt, the result's width
/// and the value. `$column` names the macro that matches `$op` against one of these columns.
///
/// Widths are `u32` expressions over whether the first operand is an SInt (`$signed`), its width
/// `$w`, the second one's width `$v` and the integers `$n` and `$m`. Values are `u128` expressions
/// over the result's width `$r`, the operands `$a` and `$b` and the same integers.
macro_rules! operators {
    (
        $column:ident, $op:expr, $signed:ident, $w:ident, $v:ident, $n:ident, $m:ident,
        $r:ident, $a:ident, $b:ident
    ) => {
        $column! { $op;
            Add: b"add", Pair, $signed, $w.max($v) + 1,
                integer($a).plus(integer($b)).low_bits($r);
            Sub: b"sub", Pair, $signed, $w.max($v) + 1,
                integer($a).minus(integer($b)).low_bits($r);
            Mul: b"mul", Pair, $signed, $w + $v,
                integer($a).times(integer($b)).low_bits($r);
            Div: b"div", Pair, $signed, $w + u32::from($signed),
                integer($a).quotient(integer($b)).low_bits($r);
            Rem: b"rem", Pair, $signed, $w.min($v),
                integer($a).remainder(integer($b)).low_bits($r);
            Lt: b"lt", Pair, false, 1,
                u128::from(integer($a).is_below(&integer($b)));
            Leq: b"leq", Pair, false, 1,
                u128::from(integer($a).is_at_most(&integer($b)));
            Gt: b"gt", Pair, false, 1,
                u128::from(integer($b).is_below(&integer($a)));
            Geq: b"geq", Pair, false, 1,
                u128::from(integer($b).is_at_most(&integer($a)));
            Eq: b"eq", Pair, false, 1,
                u128::from(integer($a).is_same(&integer($b)));
            Neq: b"neq", Pair, false, 1,
                u128::from(!integer($a).is_same(&integer($b)));
            Pad: b"pad", WithInteger, $signed, $w.max(capped($n)),
                widened($a, $r);
            Shl: b"shl", WithInteger, $signed, $w + capped($n),
                integer($a).shifted_up($n).low_bits($r);
            Shr: b"shr", WithInteger, $signed, $w.saturating_sub(capped($n)).max(1),
                integer($a).shifted_down($n).low_bits($r);
            Dshl: b"dshl", Shift, $signed, $w + capped(mask($v)),
                integer($a).shifted_up($b.value.bits()).low_bits($r);
            Dshr: b"dshr", Shift, $signed, $w,
                integer($a).shifted_down($b.value.bits()).low_bits($r);
            Cvt: b"cvt", Single, true, $w + u32::from(!$signed),
                integer($a).low_bits($r);
            Neg: b"neg", Single, true, $w + 1,
                integer($a).negated().low_bits($r);
            Not: b"not", Single, false, $w,
                complement($a);
            And: b"and", Pair, false, $w.max($v),
                widened($a, $r) & widened($b, $r);
            Or: b"or", Pair, false, $w.max($v),
                widened($a, $r) | widened($b, $r);
            Xor: b"xor", Pair, false, $w.max($v),
                widened($a, $r) ^ widened($b, $r);
            Andr: b"andr", Single, false, 1,
                u128::from($a.value.bits() == mask($a.value.width()));
            Orr: b"orr", Single, false, 1,
                u128::from($a.value.bits() != 0);
            Xorr: b"xorr", Single, false, 1,
                parity($a);
            Cat: b"cat", Pair, false, $w + $v,
                joined($a, $b);
            Bits: b"bits", WithRange, false, span($n, $m),
                field($a, $m, $r);
            Head: b"head", WithInteger, false, capped($n),
                high_bits($a, $n);
            Tail: b"tail", WithInteger, false, $w.saturating_sub(capped($n)),
                $a.value.cut($r).bits();
            AsUInt: b"asUInt", Single, false, $w,
                $a.value.bits();
            AsSInt: b"asSInt", Single, true, $w,
                $a.value.bits();
            AsAsyncReset: b"asAsyncReset", Single, false, 1,
                $a.value.bits();
        }
    };
}

pub(crate) use operators;

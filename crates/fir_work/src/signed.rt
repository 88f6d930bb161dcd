//! What is done with the numbers of signed operands.

ghost use Rattle.std.specs.Prelude.{◌≡◌, ◌<◌};
ghost use Rattle.fir_work.specs.working.Works.{CanSign, filled, signed_done, signed_result};

use crate::work::Work;

/// What is made of two signed numbers. A sum, a difference, a product and a negative are cut by a mask; a truth
/// is 1 or 0.
#[derive(Clone, Copy)]
pub(crate) enum SignedWork {
    /// Their sum.
    Sum,
    /// The first less the second.
    Difference,
    /// Their product.
    Product,
    /// The negative of the first.
    Negative,
    /// Whether the first is below the second.
    Below,
    /// Whether it is at most the second.
    AtMost,
    /// Whether it is above the second.
    Above,
    /// Whether it is at least the second.
    AtLeast,
}

/// What work on signed numbers makes of two numbers; other work makes 0.
#[inline(never)]
pub(crate) fn signed_result(work: &Work, first: u128, second: u128) -> u128
    requires { CanSign work.now }
    ensures { result ≡ signed_result work.now first second }
{
    match *work {
        Work::Signed {
            work,
            first: a,
            second: b,
            mask,
        } => signed_number(work, filled(first, a), filled(second, b), mask),
        _ => 0,
    }
}

/// What is made of two numbers of 128 bits.
#[inline]
fn signed_number(work: SignedWork, first: u128, second: u128, mask: u128) -> u128
    ensures { result ≡ signed_done work first second mask }
{
    match work {
        SignedWork::Sum => first.wrapping_add(second) & mask,
        SignedWork::Difference => first.wrapping_sub(second) & mask,
        SignedWork::Product => first.wrapping_mul(second) & mask,
        SignedWork::Negative => 0u128.wrapping_sub(first) & mask,
        SignedWork::Below => u128::from(first.cast_signed() < second.cast_signed()),
        SignedWork::AtMost => u128::from(first.cast_signed() <= second.cast_signed()),
        SignedWork::Above => u128::from(first.cast_signed() > second.cast_signed()),
        SignedWork::AtLeast => u128::from(first.cast_signed() >= second.cast_signed()),
    }
}

/// A signed number whose top bit is that, filled with its sign up to 128 bits.
#[inline]
fn filled(number: u128, top: u32) -> u128
    requires { top < 128 }
    ensures { result ≡ filled number top }
{
    if number >> top == 0 {
        return number;
    }
    let half = 1 << top;
    number.wrapping_sub(half).wrapping_sub(half)
}

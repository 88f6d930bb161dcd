//! Integers by sign and magnitude, for arithmetic on signed values.

ghost use Rattle.std.specs.Prelude.{◌≡◌, ◌+◌, ◌*◌, ◌/◌, ◌^◌, ◌<◌, ◌≤◌, pos, ◌+ℤ◌, ◌-ℤ◌, ◌*ℤ◌, neg_ℤ, unsigned_abs, int_lt, int_le};
ghost use Rattle.std.specs.Ordering.{int_eq};
ghost use Rattle.fir_bits.specs.Integers.{of_sign, bits_of, quotient, remainder, shifted_down};

use crate::bits::mask;
use std::marker::Model;

/// An integer. A negative 0 is 0.
#[derive(Drop)]
pub(crate) struct Whole {
    negative: bool,
    magnitude: u128,
}

impl Model for Whole {
    ghost use Rattle.std.specs.Prelude.{ℤ};
    ghost use Rattle.fir_bits.specs.Integers.{of_sign};

    ghost Value = { ℤ };

    ghost view = { λ x. of_sign x.negative x.magnitude };
}

impl Whole {
    /// The integer of that magnitude, below 0 where it is negative.
    pub fn new(negative: bool, magnitude: u128) -> Whole
        ensures { result ≡ of_sign negative magnitude }
    {
        Whole {
            negative,
            magnitude,
        }
    }

    /// The negative.
    pub fn negated(self) -> Whole
        ensures value { result ≡ neg_ℤ self }
        ensures size { unsigned_abs result ≡ unsigned_abs self }
    {
        Whole::new(!self.negative, self.magnitude)
    }

    /// The sum.
    pub fn plus(self, other: Whole) -> Whole
        requires { unsigned_abs self + unsigned_abs other < 2 ^ 128 }
        ensures { result ≡ self +ℤ other }
    {
        if self.negative == other.negative {
            Whole::new(self.negative, self.magnitude + other.magnitude)
        } else if self.magnitude >= other.magnitude {
            Whole::new(self.negative, self.magnitude - other.magnitude)
        } else {
            Whole::new(other.negative, other.magnitude - self.magnitude)
        }
    }

    /// The difference.
    pub fn minus(self, other: Whole) -> Whole
        requires { unsigned_abs self + unsigned_abs other < 2 ^ 128 }
        ensures { result ≡ self -ℤ other }
    {
        self.plus(other.negated())
    }

    /// The product.
    pub fn times(self, other: Whole) -> Whole
        requires { unsigned_abs self * unsigned_abs other < 2 ^ 128 }
        ensures { result ≡ self *ℤ other }
    {
        Whole::new(
            self.negative != other.negative,
            self.magnitude * other.magnitude,
        )
    }

    /// The quotient towards zero; by zero it is 0.
    pub fn quotient(self, other: Whole) -> Whole
        ensures { result ≡ quotient self other }
    {
        let magnitude = if other.magnitude == 0 {
            0
        } else {
            self.magnitude / other.magnitude
        };
        Whole::new(self.negative != other.negative, magnitude)
    }

    /// The remainder, with the sign of the first; by zero it is 0.
    pub fn remainder(self, other: Whole) -> Whole
        ensures { result ≡ remainder self other }
    {
        let rest = if other.magnitude == 0 {
            0
        } else {
            self.magnitude % other.magnitude
        };
        Whole::new(self.negative, rest)
    }

    /// The integer times two to the power of `by`.
    pub fn shifted_up(self, by: u128) -> Whole
        requires { unsigned_abs self * 2 ^ by < 2 ^ 128 }
        ensures { result ≡ self *ℤ pos (2 ^ by) }
    {
        let product = if self.magnitude == 0 {
            0
        } else {
            self.magnitude << by
        };
        Whole::new(self.negative, product)
    }

    /// The integer divided by two to the power of `by`, rounded down.
    pub fn shifted_down(self, by: u128) -> Whole
        ensures { result ≡ shifted_down self by }
    {
        if self.negative && self.magnitude > 0 {
            Whole::new(true, shifted_right(self.magnitude - 1, by) + 1)
        } else {
            Whole::new(false, shifted_right(self.magnitude, by))
        }
    }

    /// Whether the integer is below the other.
    pub fn is_below(&self, other: &Whole) -> bool
        ensures { result ≡ int_lt self.now other.now }
    {
        !other.is_at_most(self)
    }

    /// Whether the integer is the other or below it.
    pub fn is_at_most(&self, other: &Whole) -> bool
        ensures { result ≡ int_le self.now other.now }
    {
        match (self.negative, other.negative) {
            (false, false) => self.magnitude <= other.magnitude,
            (false, true) => self.magnitude == 0 && other.magnitude == 0,
            (true, false) => true,
            (true, true) => other.magnitude <= self.magnitude,
        }
    }

    /// Whether the integer is the other.
    pub fn is_same(&self, other: &Whole) -> bool
        ensures { result ≡ int_eq self.now other.now }
    {
        self.is_at_most(other) && other.is_at_most(self)
    }

    /// The low `width` bits, in two's complement.
    pub fn low_bits(self, width: u32) -> u128
        requires { width ≤ 128 }
        ensures { result ≡ bits_of width self }
    {
        let greatest = mask(width);
        if self.negative && self.magnitude > 0 {
            greatest - ((self.magnitude - 1) & greatest)
        } else {
            self.magnitude & greatest
        }
    }
}

/// The number divided by two to the power of `by`, rounded down.
pub(crate) fn shifted_right(n: u128, by: u128) -> u128
    ensures { result ≡ n / 2 ^ by }
{
    if by >= 128 { 0 } else { n >> by }
}

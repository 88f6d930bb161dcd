//! A value: a width in bits and a number below two to its power.

ghost use Rattle.std.specs.Prelude.{◌≡◌, ◌+◌, ◌^◌, ◌<◌, ◌≤◌, SomeIff, unsigned_abs};
ghost use Rattle.fir_bits.specs.Values.{IsBitVector, extended, fitted, low_bits};
ghost use Rattle.fir_bits.specs.Integers.{reading, bits_of, of_sign};

use crate::whole::Whole;
use std::marker::Model;

/// A value of a width from 0 to 128 bits.
#[derive(Clone, Copy, PartialEq, Eq)]
pub struct Bits {
    width: u32,
    bits: u128,
}

impl Model for Bits {
    ghost use Rattle.std.specs.Prelude.{ℕ};
    ghost use Rattle.fir_bits.specs.Values.{BitVector, IsBitVector};

    ghost Value = { BitVector };

    ghost view = { λ b. record { width = b.width; number = b.bits } };

    ghost invariant = { λ b. IsBitVector (record { width = b.width; number = b.bits }) };

    ghost inverse = { λ v. record { width = v.width; bits = v.number } };
}

/// The greatest number of a width.
pub fn mask(width: u32) -> u128
    requires { width ≤ 128 }
    ensures { result + 1 ≡ 2 ^ width }
{
    if width == 128 {
        u128::MAX
    } else {
        (1 << width) - 1
    }
}

impl Bits {
    /// The one value of no bits.
    pub const EMPTY: Bits = Bits { width: 0, bits: 0 };

    /// The value of that width and number.
    pub fn of(width: u32, bits: u128) -> Bits
        requires narrow { width ≤ 128 }
        requires below { bits < 2 ^ width }
        ensures { result ≡ record { width = width; number = bits } }
    {
        Bits { width, bits }
    }

    /// The value of that width, or None where the width is over 128 or the number takes more bits.
    pub fn new(width: u32, bits: u128) -> Option<Bits>
        ensures { SomeIff result ((width ≤ 128) × (bits < 2 ^ width)) (record { width = width; number = bits }) }
    {
        if width <= 128 && bits <= mask(width) {
            Some(Bits { width, bits })
        } else {
            None
        }
    }

    /// The low bits, in two's complement, of the integer of that sign and magnitude.
    pub fn of_integer(width: u32, negative: bool, magnitude: u128) -> Bits
        requires { width ≤ 128 }
        ensures { result ≡ record {
          width = width;
          number = bits_of width (of_sign negative magnitude);
        } }
    {
        Bits {
            width,
            bits: Whole::new(negative, magnitude).low_bits(width),
        }
    }

    /// The width, in bits.
    pub fn width(&self) -> u32
        ensures value { result ≡ self.now.width }
        ensures narrow { result ≤ 128 }
        ensures holds { IsBitVector self.now }
    {
        self.width
    }

    /// The number.
    pub fn bits(&self) -> u128
        ensures value { result ≡ self.now.number }
        ensures below { result < 2 ^ self.now.width }
    {
        self.bits
    }

    /// The value at a width from its own to 128 bits: filled with its sign where it is signed, else
    /// with zeros.
    pub fn extend(&self, signed: bool, to: u32) -> Bits
        requires wider { self.now.width ≤ to }
        requires narrow { to ≤ 128 }
        ensures { result ≡ record {
          width = to;
          number = extended signed self.now.width self.now.number to;
        } }
    {
        let greatest = mask(self.width);
        let bits = if signed && self.bits > greatest - self.bits {
            self.bits + (mask(to) - greatest)
        } else {
            self.bits
        };
        Bits { width: to, bits }
    }

    /// The low bits, at a width of at most the value's own.
    pub fn cut(&self, to: u32) -> Bits
        requires { to ≤ self.now.width }
        ensures { result ≡ record { width = to; number = low_bits to self.now.number } }
    {
        Bits {
            width: to,
            bits: self.bits & mask(to),
        }
    }

    /// The value at any width up to 128 bits, extended or cut.
    pub fn fit(&self, signed: bool, to: u32) -> Bits
        requires { to ≤ 128 }
        ensures { result ≡ record {
          width = to;
          number = fitted signed self.now.width self.now.number to;
        } }
    {
        if self.width <= to {
            self.extend(signed, to)
        } else {
            self.cut(to)
        }
    }

    /// The integer that the value stands for, as an SInt or a UInt.
    pub(crate) fn integer(&self, signed: bool) -> Whole
        ensures value { result ≡ reading signed self.now.width self.now.number }
        ensures size { unsigned_abs result < 2 ^ self.now.width }
    {
        let greatest = mask(self.width);
        if signed && self.bits > greatest - self.bits {
            Whole::new(true, greatest - self.bits + 1)
        } else {
            Whole::new(false, self.bits)
        }
    }
}

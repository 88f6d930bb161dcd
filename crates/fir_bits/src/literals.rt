//! The widths of literals.

ghost use Rattle.std.specs.Prelude.{◌≡◌};
ghost use Rattle.fir_bits.specs.Literals.{holds_number, least_width};

use crate::bits::mask;

/// Whether that many bits hold the number of that sign and magnitude, as a UInt or as an SInt (FIRRTL
/// spec, "Literals"). A UInt has no sign.
pub fn holds_number(signed: bool, width: u128, negative: bool, magnitude: u128) -> bool
    ensures { result ≡ holds_number signed width negative magnitude }
{
    if width > 128 {
        return true;
    }
    let greatest = mask(width as u32);
    if !signed {
        magnitude <= greatest
    } else if negative {
        magnitude == 0 || magnitude - 1 < greatest - greatest / 2
    } else {
        magnitude <= greatest / 2
    }
}

/// The least width from 1 on that holds the number of that sign and magnitude; 129 where none up to
/// 128 does (FIRRTL spec, "Literals").
#[tactic(auto, unfolding(crate::specs::Literals::least_width))]
pub fn least_width(signed: bool, negative: bool, magnitude: u128) -> u32
    ensures { result ≡ least_width signed negative magnitude }
{
    for width in 1..129 {
        if holds_number(signed, u128::from(width), negative, magnitude) {
            return width;
        }
    }
    129
}

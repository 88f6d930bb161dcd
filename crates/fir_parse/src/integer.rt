//! Integers as the grammar sees them (FIRRTL spec, "Details about Syntax").

ghost use Rattle.std.specs.Prelude.{◌≡◌};
ghost use Rattle.fir_base.specs.Digits.{decimal_value};
ghost use Rattle.fir_lex.specs.working.Numbers.{digits_of};

/// Digits, behind a sign or none, and the number that the digits spell.
#[derive(Clone, Copy)]
pub struct Integer<'a> {
    pub spelling: &'a [u8],
    pub number: u128,
    ghost value: { number ≡ decimal_value (digits_of spelling.now) },
}

impl<'a> Integer<'a> {
    ghost use Rattle.std.specs.Prelude.{◌≡◌};
    ghost use Rattle.fir_parse.specs.Numbers.{has_sign};
    ghost use Rattle.fir_parse.specs.working.Ranges.{has_minus};

    /// Whether it begins with a sign.
    pub fn has_sign(self) -> bool
        ensures { result ≡ has_sign self.entry.spelling.now }
    {
        matches!(self.spelling, [b'+' | b'-', ..])
    }

    /// Whether it begins with a minus.
    pub fn has_minus(self) -> bool
        ensures { result ≡ has_minus self.entry.spelling.now }
    {
        matches!(self.spelling, [b'-', ..])
    }
}

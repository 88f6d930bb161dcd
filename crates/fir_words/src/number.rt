//! Numbers on the command line.

ghost use Rattle.std.specs.Prelude.{◌≡◌};
ghost use Rattle.std.specs.List.{list_all};
ghost use Rattle.fir_base.specs.Bytes.{is_digit};
ghost use Rattle.fir_words.specs.Commands.{is_decimal, number_of};

use fir_base::{decimal_value, is_digit};

/// The number that the text spells in decimal digits, with no zero before others, unless it is 2^32 or more.
pub(crate) fn number_of(text: &str) -> Option<u32>
    ensures { result ≡ number_of text.now }
{
    let digits = text.as_bytes();
    if !is_decimal(digits) {
        return None;
    }
    u32::try_from(decimal_value(digits)?).ok()
}

// Decimal digits, and no zero before others.
fn is_decimal(text: &[u8]) -> bool
    ensures { result ≡ is_decimal text.now }
{
    match text {
        [] => false,
        [first, rest @ ..] => are_digits(text) && (rest.is_empty() || *first != b'0'),
    }
}

fn are_digits(text: &[u8]) -> bool
    ensures { result ≡ list_all is_digit text.now }
{
    text.iter().all(|byte| is_digit(*byte))
}

//! The words of an init line.

ghost use Rattle.std.specs.Prelude.{◌≡◌, true};
ghost use Rattle.trace_text.specs.Lines.{words_of};
ghost use Rattle.trace_text.specs.working.Readings.{is_init_line};
ghost use Rattle.trace_text.specs.working.InitWords.{GivesWords};

use crate::fault::Cause;
use crate::words::{first_word, word_count};

/// The words behind `init`.
#[derive(Clone, Copy)]
pub enum InitWords<'a> {
    /// The name of a register and the digits of its value.
    Register(&'a [u8], &'a [u8]),
    /// The name of an array, an address, and the digits of the value there.
    Array(&'a [u8], &'a [u8], &'a [u8]),
}

/// The words behind the `init` of a line, or that they are too few or too many.
pub fn init_words(line: &[u8]) -> Result<InitWords<'_>, Cause>
    requires { is_init_line line.now ≡ true }
    ensures { GivesWords (words_of line.now) result }
{
    let (_, Some(rest)) = first_word(line) else {
        return Err(Cause::Count(1, 3));
    };
    let (name, Some(rest)) = first_word(rest) else {
        return Err(Cause::Count(2, 3));
    };
    match first_word(rest) {
        (digits, None) => Ok(InitWords::Register(name, digits)),
        (address, Some(rest)) => match first_word(rest) {
            (digits, None) => Ok(InitWords::Array(name, address, digits)),
            (_, Some(rest)) => Err(Cause::Count(4 + word_count(rest), 4)),
        },
    }
}

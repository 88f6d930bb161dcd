//! How the names of a trace are spelled.

ghost use Rattle.std.specs.Prelude.{◌≡◌};
ghost use Rattle.std.specs.List.{list_all};
ghost use Rattle.ver_words.specs.Names.{is_word};
ghost use Rattle.fir_base.specs.Bytes.{is_word_start, is_word_byte};

use fir_base::{is_word_byte, is_word_start};

fn are_word_bytes(bytes: &[u8]) -> bool
    ensures { result ≡ list_all is_word_byte bytes.now }
{
    bytes.iter().all(|byte| is_word_byte(*byte))
}

/// Whether a word is spelled as a name (IEEE 1364-2005, 3.7).
pub fn is_word(word: &[u8]) -> bool
    ensures { result ≡ is_word word.now }
{
    match word.split_first() {
        None => false,
        Some((first, rest)) => is_word_start(*first) && are_word_bytes(rest),
    }
}

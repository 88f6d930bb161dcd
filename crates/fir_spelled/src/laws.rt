//! A law about the definitions, the contract of a function that does nothing.

ghost use Rattle.fir_spelled.specs.working.Laws.{SpelledNamesAreWords};

use fir_lex::laws::lexed_form_by_form;

/// The names in the circuit of a text are words, and those of its fields have the bytes of words.
pub fn spelled_names_are_words()
    ensures { SpelledNamesAreWords }
{
    lexed_form_by_form();
}

//! Laws about the definitions, each the contract of a function that does nothing.

ghost use Rattle.fir_parse.specs.working.Laws.{SpellsOneTree, HasTreeOrFault, ShowsOneFault, UnsupportedNamesItsWord, SpelledFormByForm, TokensRise, PlacesRise};

use fir_lex::laws::{faults_form_by_form, lexed_form_by_form};

/// A text spells one tree at most.
pub fn spells_one_tree()
    ensures { SpellsOneTree }
{
    lexed_form_by_form();
}

/// A text spells a tree, or it has a fault, and not both.
pub fn has_tree_or_fault()
    ensures { HasTreeOrFault }
{
    lexed_form_by_form();
    faults_form_by_form();
}

/// A text shows one fault at most.
pub fn shows_one_fault()
    ensures { ShowsOneFault }
{
    lexed_form_by_form();
    faults_form_by_form();
}

/// A form that is not in the language is shown at its word: the token with which no text goes on, or the
/// last before it.
pub fn unsupported_names_its_word()
    ensures { UnsupportedNamesItsWord }
{}

/// Reading from the left, token by token, takes the same texts, with the same trees, as the grammar form by form,
/// wherever limits count.
pub fn spelled_form_by_form()
    ensures { SpelledFormByForm }
{}

/// The tokens of a text stand one behind the other, but for the ends of lines and the levels that open and close.
pub fn tokens_rise()
    ensures { TokensRise }
{}

/// The places in the tree of a text rise in the order of the text.
pub fn places_rise()
    ensures { PlacesRise }
{
    lexed_form_by_form();
}

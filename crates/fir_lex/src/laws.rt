//! Laws about the definitions, each the contract of a function that does nothing.

ghost use Rattle.fir_lex.specs.working.Laws.{FaultsFormByForm, LexedFormByForm, NoLongerBegins};

/// A text is lexed as the tokens that its lines and their pieces have, form by form; and a text that has
/// tokens so is lexed as these.
pub fn lexed_form_by_form()
    ensures { LexedFormByForm }
{}

/// The fault that is told of a text is the first that shows in its tokens, form by form; and a text with such
/// a fault is refused for it.
pub fn faults_form_by_form()
    ensures { FaultsFormByForm }
{}

/// Of the tokens that begin at one place none is longer than the one that is taken.
pub fn no_longer_begins()
    ensures { NoLongerBegins }
{}

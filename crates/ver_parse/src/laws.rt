//! Laws about the definitions, each the contract of a function that does nothing.

ghost use Rattle.ver_parse.specs.working.Laws.{NoTreeBesideAFault, NoTreeBesideATokenFault, TextHasTreeOrFault, TextShowsOneFault, TokensShowOneFault};

use ver_ast::tokens_have_one_place;
use ver_lex::laws::texts_have_tokens_or_stop_once;

/// The tokens of a text, or those before its first byte that is in none, show one fault at most.
pub fn tokens_show_one_fault()
    ensures { TokensShowOneFault }
{}

/// Tokens that show a fault are those of no tree in which at most 256 braces are open.
pub fn no_tree_beside_a_token_fault()
    ensures { NoTreeBesideATokenFault }
{}

/// A text spells a tree in which at most 256 braces are open, or it has a fault.
pub fn text_has_tree_or_fault()
    ensures { TextHasTreeOrFault }
{
    texts_have_tokens_or_stop_once();
}

/// A text that has a fault spells no tree in which at most 256 braces are open.
pub fn no_tree_beside_a_fault()
    ensures { NoTreeBesideAFault }
{
    tokens_have_one_place();
    texts_have_tokens_or_stop_once();
}

/// A text shows one fault at most.
pub fn text_shows_one_fault()
    ensures { TextShowsOneFault }
{
    tokens_have_one_place();
    texts_have_tokens_or_stop_once();
}

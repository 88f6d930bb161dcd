//! Laws about the definitions, each the contract of a function that does nothing.

ghost use Rattle.ver_lex.specs.working.Laws.{HasTokensOrStops, NeverBoth, StopsOnce};

/// A text has tokens, or it stops at a byte that is in none, and never both. It stops at one byte at most, behind
/// one list of tokens.
pub fn texts_have_tokens_or_stop_once()
    ensures either { HasTokensOrStops }
    ensures never_both { NeverBoth }
    ensures once { StopsOnce }
{}

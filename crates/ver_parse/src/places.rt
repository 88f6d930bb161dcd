//! The places that a tree has of its text.

ghost use Rattle.std.specs.Prelude.{◌≡◌, ◌++◌, IfOk, OnOk, slice_get};
ghost use Rattle.ver_parse.specs.working.Whole.{place_of};
ghost use Rattle.ver_ast.specs.Spells.{has_place, places_of};
ghost use Rattle.ver_ast.specs.Tokens.{VToken};
ghost use Rattle.ver_lex.specs.working.Lexemes.{Sees};

use fir_base::MemoryOut;
use std::alloc::Global;
use ver_ast::VPlace;
use ver_lex::{Lexeme, Tokens};

/// The places of the words, numbers, constants, `$signed`, `[` and `{` among the tokens, in order.
pub fn places_of(alloc: Global, tokens: &Tokens) -> Result<Vec<VPlace>, MemoryOut>
    ensures { IfOk result (λ v. v.items ≡ places_of tokens.now.tokens) }
{
    let mut places = Vec::new(alloc);
    for index in 0..tokens.len() {
        put_place(&mut places, tokens, index)?;
    }
    Ok(places)
}

/// Appends the place of the token at the index, if it is one of those whose places a tree has.
fn put_place(places: &mut Vec<VPlace>, tokens: &Tokens, index: usize) -> Result<(), MemoryOut>
    ensures { OnOk result (places.new.items ≡ places.old.items ++ place_of (slice_get tokens.now.tokens index)) }
{
    match tokens.get(index) {
        Some(next) => {
            if has_place(next.lexeme) {
                places.push(next.place)?;
            }
            Ok(())
        }
        None => Ok(()),
    }
}

/// Whether the token is one of those whose places a tree has.
fn has_place(lexeme: Lexeme<'_>) -> bool
    ensures { (t : VToken) → Sees lexeme.entry t → result ≡ has_place t }
{
    match lexeme {
        Lexeme::Sign(mark) => mark == b'[' || mark == b'{',
        Lexeme::Double(_, _) | Lexeme::SignedShift => false,
        Lexeme::Word(_)
        | Lexeme::Zero
        | Lexeme::Number(_)
        | Lexeme::Constant(_)
        | Lexeme::SignedWord
        | Lexeme::QuestionDigit => true,
    }
}

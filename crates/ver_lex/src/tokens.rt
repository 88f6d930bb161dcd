//! The tokens of a text.

ghost use Rattle.std.specs.Prelude.{◌≡◌, ◌≤◌, All, length, map, slice_get};
ghost use Rattle.ver_ast.specs.Pieces.{place_after};
ghost use Rattle.ver_lex.specs.working.Lexemes.{NextAt};
ghost use Rattle.ver_lex.specs.working.View.{IsWithin, spelled};

use crate::bad_byte::BadByte;
use crate::cursor::Cursor;
use crate::kind::Item;
use crate::lexeme::{Next, seen_as};
use std::marker::Model;
use ver_ast::VPlace;

/// The tokens of a text in order, up to its first byte that is in none, with one copy of the text.
#[derive(Drop)]
pub struct Tokens {
    bytes: Vec<u8>,
    items: Vec<Item>,
    bad: Option<BadByte>,
}

impl Model for Tokens {
    ghost use Rattle.std.specs.Prelude.{◌≤◌, All, length, map};
    ghost use Rattle.ver_lex.specs.working.Lexed.{Lexed};
    ghost use Rattle.ver_lex.specs.working.View.{IsWithin, spelled};

    ghost Value = { Lexed };

    ghost view = { λ t. record { text = t.bytes.items; tokens = map (spelled t.bytes.items) t.items.items; stop = t.bad } };

    ghost invariant = { λ t. (length t.bytes.items ≤ 16777216) × All (IsWithin t.bytes.items) t.items.items };
}

impl Tokens {
    pub(crate) fn new(bytes: Vec<u8>, items: Vec<Item>, bad: Option<BadByte>) -> Tokens
        requires short { length bytes.items ≤ 16777216 }
        requires within { All (IsWithin bytes.items) items.items }
        ensures { result ≡ record { text = bytes.items; tokens = map (spelled bytes.items) items.items; stop = bad } }
    {
        Tokens { bytes, items, bad }
    }

    /// How many tokens there are.
    pub fn len(&self) -> usize
        ensures { result ≡ length self.now.tokens }
    {
        self.items.len()
    }

    /// The token at the index, unless the index is past the last.
    pub fn get(&self, index: usize) -> Option<Next<'_>>
        ensures { NextAt result (slice_get self.now.tokens index) }
    {
        if index < self.items.len() {
            let item = self.items[index];
            let (start, end) = (item.start as usize, item.end as usize);
            Some(Next {
                lexeme: seen_as(item.kind, &self.bytes.as_slice()[start..end]),
                place: item.place,
            })
        } else {
            None
        }
    }

    /// The place of the text's end, behind its last byte. In a text of no bytes it is line 1, column 1.
    pub fn end(&self) -> VPlace
        ensures { result ≡ place_after self.now.text }
    {
        Cursor::start().behind(self.bytes.as_slice()).place
    }

    /// The first byte that is in no token, unless the tokens are those of the whole text.
    pub fn stop(&self) -> Option<BadByte>
        ensures { result ≡ self.now.stop }
    {
        self.bad
    }
}

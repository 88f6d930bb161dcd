//! The tokens of a text.

ghost use Rattle.std.specs.Prelude.{◌≡◌, ◌≤◌, All, length, map, nat_eq, option_map, slice_get};
ghost use Rattle.fir_lex.specs.working.Bytes.{place_behind};
ghost use Rattle.fir_lex.specs.working.View.{IsWithin, spelled, placed};

use crate::cursor::Cursor;
use crate::token::{Item, TokenRef};
use fir_ast::Place;
use std::marker::Model;

/// The tokens of a text in order, with one copy of the text that they are spelled in.
#[derive(Drop)]
pub struct Tokens {
    text: Vec<u8>,
    items: Vec<Item>,
}

impl Model for Tokens {
    ghost use Rattle.std.specs.Prelude.{◌≤◌, All, length, map};
    ghost use Rattle.fir_lex.specs.working.TokenText.{TokenText};
    ghost use Rattle.fir_lex.specs.working.View.{IsWithin, spelled};

    ghost Value = { TokenText };

    ghost view = { λ t. record { text = t.text.items; tokens = map (spelled t.text.items) t.items.items } };

    ghost invariant = { λ t. (length t.text.items ≤ 16777216) × All (IsWithin t.text.items) t.items.items };
}

impl Tokens {
    pub(crate) fn new(text: Vec<u8>, items: Vec<Item>) -> Tokens
        requires short { length text.items ≤ 16777216 }
        requires within { All (IsWithin text.items) items.items }
        ensures { result ≡ record { text = text.items; tokens = map (spelled text.items) items.items } }
    {
        Tokens { text, items }
    }

    /// How many tokens there are.
    pub fn len(&self) -> usize
        ensures { result ≡ length self.now.tokens }
    {
        self.items.len()
    }

    /// Whether there are none.
    pub fn is_empty(&self) -> bool
        ensures { result ≡ nat_eq (length self.now.tokens) 0 }
    {
        self.items.is_empty()
    }

    /// The token at the index, unless the index is past the last.
    pub fn get(&self, index: usize) -> Option<TokenRef<'_>>
        ensures { option_map placed result ≡ slice_get self.now.tokens index }
    {
        if index < self.items.len() {
            let item = self.items[index];
            let (start, end) = (item.start as usize, item.end as usize);
            Some(TokenRef {
                kind: item.kind,
                spelling: &self.text.as_slice()[start..end],
                place: item.place,
            })
        } else {
            None
        }
    }

    /// The place of the text's end, behind its last byte. In a text of no bytes it is line 1, column 1.
    pub fn end(&self) -> Place
        ensures { result ≡ place_behind (record { line = 1; col = 1 }) self.now.text }
    {
        Cursor::start().behind(self.text.as_slice()).place
    }
}

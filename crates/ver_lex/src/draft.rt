//! The tokens of a text that are found so far.

ghost use Rattle.std.specs.Prelude.{◌≤◌, All, length};
ghost use Rattle.ver_lex.specs.working.View.{IsWithin};

use crate::bad_byte::BadByte;
use crate::kind::{Item, Kind};
use crate::tokens::Tokens;
use fir_base::MemoryOut;
use std::alloc::Global;
use ver_ast::VPlace;

#[derive(Drop)]
pub struct Draft {
    pub text: Vec<u8>,
    pub items: Vec<Item>,
    ghost short: { length text.items ≤ 16777216 },
    ghost within: { All (IsWithin text.items) items.items },
}

impl Draft {
    ghost use Rattle.std.specs.Prelude.{◌≡◌, ◌++◌, ◌∷◌, [], ◌≤◌, IfOk, OnOk, slice_range, length, drop};
    ghost use Rattle.ver_lex.specs.working.View.{HasBytes, token_of};
    ghost use Rattle.ver_lex.specs.working.Ways.{tokens_in};

    pub fn new(alloc: Global, bytes: &[u8]) -> Result<Draft, MemoryOut>
        requires { length bytes.now ≤ 16777216 }
        ensures text { IfOk result (λ d. d.text.items ≡ bytes.now) }
        ensures tokens { IfOk result (λ d. tokens_in d ≡ []) }
    {
        Ok(Draft {
            text: Vec::from_slice(alloc, bytes)?,
            items: Vec::new(alloc),
        })
    }

    /// The bytes from the index on.
    pub fn rest(&self, index: usize) -> &[u8]
        requires { index ≤ length self.now.text.items }
        ensures { result.now ≡ drop index self.now.text.items }
    {
        let (_, rest) = self.text.as_slice().split_at(index);
        rest
    }

    /// Adds a token that the bytes from `start` to before `end` spell.
    pub fn push(
        &mut self,
        kind: Kind,
        place: VPlace,
        start: usize,
        end: usize,
    ) -> Result<(), MemoryOut>
        requires ordered { start ≤ end }
        requires within { end ≤ length self.old.text.items }
        requires has_bytes { HasBytes kind (slice_range self.old.text.items start end) }
        ensures text { self.new.text.items ≡ self.old.text.items }
        ensures tokens { OnOk result (tokens_in self.new ≡ tokens_in self.old ++ record { token = token_of kind (slice_range self.old.text.items start end); place = place } ∷ []) }
    {
        let item = Item {
            kind,
            place,
            start: start as u32,
            end: end as u32,
        };
        self.items.push(item)?;
        Ok(())
    }

    /// The tokens, and the text with them.
    pub fn into_tokens(self, stop: Option<BadByte>) -> Tokens
        ensures { result ≡ record { text = self.text.items; tokens = tokens_in self; stop = stop } }
    {
        let Draft { text, items } = self;
        Tokens::new(text, items, stop)
    }
}

//! The way through a text, token by token.

ghost use Rattle.std.specs.Prelude.{◌≤◌, IfOk, length};
ghost use Rattle.ver_lex.specs.working.Lexed.{IsLexed};

use crate::bad_byte::BadByte;
use crate::cursor::Cursor;
use crate::draft::Draft;
use crate::front::read_front;
use crate::kind::Kind;
use crate::piece::Piece;
use crate::tokens::Tokens;
use fir_base::MemoryOut;
use std::alloc::Global;

/// What is found so far, and how the text goes on.
#[derive(Drop)]
pub struct Lexer {
    pub draft: Draft,
    pub cursor: Cursor,
    ghost within: { cursor.index ≤ length draft.text.items },
}

impl Lexer {
    ghost use Rattle.std.specs.Prelude.{◌≡◌, ◌+◌, ◌<◌, ◌≤◌, ◌∷◌, [], ◌++◌, IfOk, OnOk, nat_le, length, take, drop, slice_range};
    ghost use Rattle.ver_lex.specs.working.Bytes.{place_behind};
    ghost use Rattle.ver_lex.specs.working.View.{HasBytes, token_of};
    ghost use Rattle.ver_lex.specs.working.Ways.{tokens_in, HasRead, Passes, StepsTo};

    pub fn new(alloc: Global, bytes: &[u8]) -> Result<Lexer, MemoryOut>
        requires { length bytes.now ≤ 16777216 }
        ensures text { IfOk result (λ l. l.draft.text.items ≡ bytes.now) }
        ensures read { IfOk result (λ l. HasRead l) }
    {
        Ok(Lexer {
            draft: Draft::new(alloc, bytes)?,
            cursor: Cursor::start(),
        })
    }

    /// Whether the end of the text is reached.
    pub fn is_at_end(&self) -> bool
        ensures { result ≡ nat_le (length self.now.draft.text.items) self.now.cursor.index }
    {
        self.draft.text.len() <= self.cursor.index
    }

    /// Passes so many bytes.
    fn pass(&mut self, count: usize)
        requires { self.old.cursor.index + count ≤ length self.old.draft.text.items }
        ensures draft { self.new.draft ≡ self.old.draft }
        ensures passes { Passes self.old count self.new }
    {
        let (passed, _) = self.draft.rest(self.cursor.index).split_at(count);
        self.cursor = self.cursor.behind(passed);
    }

    /// The token of so many bytes at the cursor.
    fn take(&mut self, kind: Kind, count: usize) -> Result<(), MemoryOut>
        requires within { self.old.cursor.index + count ≤ length self.old.draft.text.items }
        requires has_bytes { HasBytes kind (take count (drop self.old.cursor.index self.old.draft.text.items)) }
        ensures text { self.new.draft.text.items ≡ self.old.draft.text.items }
        ensures passes { OnOk result (Passes self.old count self.new) }
        ensures tokens { OnOk result (tokens_in self.new.draft ≡ tokens_in self.old.draft ++ record { token = token_of kind (take count (drop self.old.cursor.index self.old.draft.text.items)); place = self.old.cursor.place } ∷ []) }
    {
        let start = self.cursor.index;
        self.draft
            .push(kind, self.cursor.place, start, start + count)?;
        self.pass(count);
        Ok(())
    }

    /// What stands at the cursor. False where nothing does.
    pub fn step(&mut self) -> Result<bool, MemoryOut>
        requires some { self.old.cursor.index < length self.old.draft.text.items }
        requires read { HasRead self.old }
        ensures text { self.new.draft.text.items ≡ self.old.draft.text.items }
        ensures steps { IfOk result (λ found. StepsTo found self.old self.new) }
    {
        match read_front(self.draft.rest(self.cursor.index)) {
            Piece::Passed(count) => self.pass(count),
            Piece::Token(kind, count) => self.take(kind, count)?,
            Piece::Questioned(count) => {
                self.take(Kind::Constant, count)?;
                self.take(Kind::QuestionDigit, 1)?;
            }
            Piece::Nothing => return Ok(false),
        }
        Ok(true)
    }

    /// The byte at the cursor.
    fn bad_byte(&self) -> BadByte
        requires { self.now.cursor.index < length self.now.draft.text.items }
        ensures place { result.place ≡ self.now.cursor.place }
        ensures byte { drop self.now.cursor.index self.now.draft.text.items ≡ result.byte ∷ drop (self.now.cursor.index + 1) self.now.draft.text.items }
    {
        BadByte {
            place: self.cursor.place,
            byte: self.draft.text[self.cursor.index],
        }
    }

    pub fn into_tokens(self, stop: Option<BadByte>) -> Tokens
        ensures { result ≡ record { text = self.draft.text.items; tokens = tokens_in self.draft; stop = stop } }
    {
        let Lexer { draft, cursor: _ } = self;
        draft.into_tokens(stop)
    }
}

/// The tokens of the text (IEEE 1364-2005, 3.1 to 3.8): all of them, or those before the first byte that is in
/// none. A text of more than 16777216 bytes is for the caller to refuse.
pub fn lex(alloc: Global, bytes: &[u8]) -> Result<Tokens, MemoryOut>
    requires { length bytes.now ≤ 16777216 }
    ensures { IfOk result (λ t. IsLexed bytes.now t) }
{
    let mut lexer = Lexer::new(alloc, bytes)?;
    while !lexer.is_at_end() {
        if !lexer.step()? {
            let bad = lexer.bad_byte();
            return Ok(lexer.into_tokens(Some(bad)));
        }
    }
    Ok(lexer.into_tokens(None))
}

//! The way through a text, token by token.

ghost use Rattle.std.specs.Prelude.{◌≡◌, ◌≤◌, IfOk, length};
ghost use Rattle.fir_lex.specs.working.Lexed.{lexed};
ghost use Rattle.fir_lex.specs.working.Steps.{Gives};

use crate::byte::{ends_line, line_end_length};
use crate::cursor::Cursor;
use crate::draft::Draft;
use crate::front::read_front;
use crate::indentation::{blank_length, idle_length, is_idle, tab_position, unmet};
use crate::levels::{close, move_to};
use crate::piece::{Found, Piece};
use crate::token::Kind;
use crate::tokens::Tokens;
use fir_ast::FirFault;
use fir_base::{MemoryOut, Refused};
use std::alloc::Global;

/// What is found so far, and how the text goes on.
#[derive(Drop)]
pub struct Lexer {
    pub draft: Draft,
    pub cursor: Cursor,
    /// Whether a line begins at the cursor.
    pub begins: bool,
    /// The open levels, the innermost last.
    pub levels: Vec<u32>,
    ghost within: { cursor.index ≤ length draft.text.items },
}

impl Lexer {
    ghost use Rattle.std.specs.Prelude.{◌≡◌, ◌+◌, ◌<◌, ◌≤◌, ◌∷◌, [], ◌++◌, true, false, Ok, IfOk, OnOk, nat_le, length, take, drop, slice_range};
    ghost use Rattle.fir_lex.specs.Tokens.{line_end};
    ghost use Rattle.fir_lex.specs.working.Bytes.{place_behind};
    ghost use Rattle.fir_lex.specs.working.Lexed.{lexed};
    ghost use Rattle.fir_lex.specs.working.Numbers.{HasNumber};
    ghost use Rattle.fir_lex.specs.working.View.{token_of};
    ghost use Rattle.fir_lex.specs.working.Steps.{tokens_in, Leaves};
    ghost use Rattle.fir_lex.specs.working.Ways.{left, turns, Passes};

    pub fn new(alloc: Global, bytes: &[u8]) -> Result<Lexer, MemoryOut>
        requires { length bytes.now ≤ 16777216 }
        ensures text { IfOk result (λ l. l.draft.text.items ≡ bytes.now) }
        ensures same { IfOk result (λ l. left l ≡ lexed bytes.now) }
    {
        Ok(Lexer {
            draft: Draft::new(alloc, bytes)?,
            cursor: Cursor::start(),
            begins: true,
            levels: Vec::new(alloc),
        })
    }

    /// Whether the end of the text is reached.
    pub fn is_at_end(&self) -> bool
        ensures { result ≡ nat_le (length self.now.draft.text.items) self.now.cursor.index }
    {
        self.draft.text.len() <= self.cursor.index
    }

    /// Passes so many bytes.
    fn pass(&mut self, count: usize)
        requires { self.old.cursor.index + count ≤ length self.old.draft.text.items }
        ensures index { self.new.cursor.index ≡ self.old.cursor.index + count }
        ensures place { self.new.cursor.place ≡ place_behind self.old.cursor.place (take count (drop self.old.cursor.index self.old.draft.text.items)) }
        ensures draft { self.new.draft ≡ self.old.draft }
        ensures begins { self.new.begins ≡ self.old.begins }
        ensures levels { self.new.levels ≡ self.old.levels }
    {
        let (passed, _) = self.draft.rest(self.cursor.index).split_at(count);
        self.cursor = self.cursor.behind(passed);
    }

    /// The indentation at the cursor, or a line that counts for nothing.
    fn begin_line(&mut self) -> Result<(), Refused<FirFault>>
        requires begins { self.old.begins ≡ true }
        requires some { self.old.cursor.index < length self.old.draft.text.items }
        ensures text { self.new.draft.text.items ≡ self.old.draft.text.items }
        ensures same { Leaves result (left self.old) (left self.new) }
        ensures nearer { OnOk result (turns self.new < turns self.old) }
    {
        let rest = self.draft.rest(self.cursor.index);
        let (blanks, behind) = rest.split_at(blank_length(rest));
        if is_idle(behind) {
            let count = blanks.len() + idle_length(behind);
            self.pass(count);
            return Ok(());
        }
        if let Some(tab) = tab_position(blanks) {
            let (spaces, _) = blanks.split_at(tab);
            let place = self.cursor.behind(spaces).place;
            return Err(Refused::Fault(FirFault::Tab(place)));
        }
        let spaces = blanks.len() as u32;
        let first = self.cursor.behind(blanks);
        if !move_to(&mut self.levels, &mut self.draft, spaces, first.place)? {
            let behind = self.draft.rest(first.index);
            return Err(Refused::Fault(unmet(first.place, spaces, behind)));
        }
        self.cursor = first;
        self.begins = false;
        Ok(())
    }

    /// The line's end at the cursor, of so many bytes.
    fn end_line(&mut self, count: usize) -> Result<(), MemoryOut>
        requires { self.old.cursor.index + count ≤ length self.old.draft.text.items }
        ensures text { self.new.draft.text.items ≡ self.old.draft.text.items }
        ensures passes { OnOk result (Passes self.old count self.new) }
        ensures tokens { OnOk result (tokens_in self.new.draft ≡ tokens_in self.old.draft ++ record { token = line_end; place = self.old.cursor.place } ∷ []) }
        ensures begins { OnOk result (self.new.begins ≡ true) }
    {
        self.draft.push_bare(Kind::LineEnd, self.cursor.place)?;
        self.pass(count);
        self.begins = true;
        Ok(())
    }

    /// The token at the cursor.
    fn take(&mut self, found: Found) -> Result<(), MemoryOut>
        requires within { self.old.cursor.index + found.length ≤ length self.old.draft.text.items }
        requires number { HasNumber found.kind (slice_range (drop self.old.cursor.index self.old.draft.text.items) found.from found.upto) }
        ensures text { self.new.draft.text.items ≡ self.old.draft.text.items }
        ensures passes { OnOk result (Passes self.old found.length self.new) }
        ensures tokens { OnOk result (tokens_in self.new.draft ≡ tokens_in self.old.draft ++ record { token = token_of found.kind (slice_range (drop self.old.cursor.index self.old.draft.text.items) found.from found.upto); place = self.old.cursor.place } ∷ []) }
        ensures begins { self.new.begins ≡ self.old.begins }
    {
        let index = self.cursor.index;
        let (start, end) = (index + found.from, index + found.upto);
        self.draft.push(found.kind, self.cursor.place, start, end)?;
        self.pass(found.length);
        Ok(())
    }

    /// What stands at the cursor within a line.
    fn in_line(&mut self) -> Result<(), Refused<FirFault>>
        requires begins { self.old.begins ≡ false }
        requires some { self.old.cursor.index < length self.old.draft.text.items }
        ensures text { self.new.draft.text.items ≡ self.old.draft.text.items }
        ensures same { Leaves result (left self.old) (left self.new) }
        ensures nearer { OnOk result (turns self.new < turns self.old) }
    {
        let rest = self.draft.rest(self.cursor.index);
        if ends_line(rest) {
            let count = line_end_length(rest);
            self.end_line(count)?;
            return Ok(());
        }
        match read_front(rest) {
            Piece::Found(found) => self.take(found)?,
            Piece::Passed(count) => self.pass(count),
            Piece::BadByte(count, byte) => {
                let (front, _) = rest.split_at(count);
                let place = self.cursor.behind(front).place;
                return Err(Refused::Fault(FirFault::Byte(place, byte)));
            }
            Piece::BadLiteral => {
                return Err(Refused::Fault(FirFault::BadLiteral(self.cursor.place)));
            }
        }
        Ok(())
    }

    pub fn step(&mut self) -> Result<(), Refused<FirFault>>
        requires { self.old.cursor.index < length self.old.draft.text.items }
        ensures text { self.new.draft.text.items ≡ self.old.draft.text.items }
        ensures same { Leaves result (left self.old) (left self.new) }
        ensures nearer { OnOk result (turns self.new < turns self.old) }
    {
        if self.begins {
            self.begin_line()
        } else {
            self.in_line()
        }
    }

    /// The end of the text: the line's end, and the levels that are open.
    pub fn end(&mut self) -> Result<(), MemoryOut>
        requires { length self.old.draft.text.items ≤ self.old.cursor.index }
        ensures text { self.new.draft.text.items ≡ self.old.draft.text.items }
        ensures tokens { OnOk result (left self.old ≡ Ok (tokens_in self.new.draft)) }
    {
        let place = self.cursor.place;
        if self.begins {
            close(self.levels.as_slice(), &mut self.draft, place)?;
            return Ok(());
        }
        self.draft.push_bare(Kind::LineEnd, place)?;
        close(self.levels.as_slice(), &mut self.draft, place)?;
        Ok(())
    }

    pub fn into_tokens(self) -> Tokens
        ensures { result ≡ record { text = self.draft.text.items; tokens = tokens_in self.draft } }
    {
        let Lexer {
            draft,
            cursor: _,
            begins: _,
            levels: _,
        } = self;
        draft.into_tokens()
    }
}

/// The tokens of the text, with their places, or its first fault of E01, E02 and E03 (FIRRTL spec, "Details
/// about Syntax"). Of two faults at one byte the one of the lower number comes first. A text of more than
/// 16777216 bytes is for the caller to refuse.
pub fn lex(alloc: Global, bytes: &[u8]) -> Result<Tokens, Refused<FirFault>>
    requires { length bytes.now ≤ 16777216 }
    ensures tokens { Gives result (lexed bytes.now) }
    ensures text { IfOk result (λ t. t.text ≡ bytes.now) }
{
    let mut lexer = Lexer::new(alloc, bytes)?;
    while !lexer.is_at_end() {
        lexer.step()?;
    }
    lexer.end()?;
    Ok(lexer.into_tokens())
}

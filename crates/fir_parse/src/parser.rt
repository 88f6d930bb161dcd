//! The parser's place among the tokens.

ghost use Rattle.std.specs.Prelude.{◌≡◌, ◌≤◌, length, drop, map};
ghost use Rattle.fir_parse.specs.declared.lexeme.Lexeme.TheVariants.{End};
ghost use Rattle.fir_parse.specs.Lexemes.{terminal_of};
ghost use Rattle.fir_parse.specs.working.AtHand.{IsAtHand};

use crate::lexeme::Lexeme;
use crate::stop::Stop;
use fir_ast::{FirFault, Place};
use fir_lex::Tokens;
use std::alloc::Global;

/// A token that is at hand.
#[derive(Clone, Copy)]
pub struct Next<'t> {
    pub lexeme: Lexeme<'t>,
    pub place: Place,
}

/// A tree of a type or an expression, with its height, which is at most 256.
#[derive(Drop)]
pub struct Tall<T> {
    pub tree: T,
    pub height: u32,
}

/// The way through the tokens of a text.
#[derive(Drop)]
pub struct Parser<'t> {
    pub alloc: Global,
    pub tokens: &'t Tokens,
    /// The token at hand, which is matched once, however often it is looked at; or the end.
    pub at_hand: Next<'t>,
    /// The index of the token behind it.
    pub next: usize,
    ghost ended: { at_hand.lexeme ≡ End → length tokens.now.tokens ≤ next },
}

/// The token at an index, or the end.
#[tactic(auto, using(crate::proofs::Remaining::at_the_end))]
fn token_at<'t>(tokens: &'t Tokens, index: usize) -> Next<'t>
    ensures { IsAtHand (map terminal_of (drop index tokens.now.tokens)) result }
{
    match tokens.get(index) {
        Some(token) => Next {
            lexeme: Lexeme::of(token),
            place: token.place,
        },
        None => Next {
            lexeme: Lexeme::End,
            place: Place { line: 0, col: 0 },
        },
    }
}

impl<'t> Parser<'t> {
    ghost use Rattle.std.specs.Prelude.{◌≡◌, ◌≢◌, ◌<◌, [], drop, map};
    ghost use Rattle.fir_parse.specs.working.AtHand.{IsAtHand};
    ghost use Rattle.fir_parse.specs.working.Reads.{left, rest};

    /// The way from the first token on.
    #[tactic(auto, using(crate::proofs::Remaining::all_behind, crate::proofs::Remaining::joined, crate::proofs::Remaining::joined_at_end))]
    pub fn new(alloc: Global, tokens: &'t Tokens) -> Parser<'t>
        ensures { rest result ≡ map terminal_of tokens.now.tokens }
    {
        Parser {
            alloc,
            tokens,
            at_hand: token_at(tokens, 0),
            next: 1,
        }
    }

    /// The token at hand, or the end.
    #[tactic(auto, using(crate::proofs::Remaining::stands_at_hand))]
    pub fn peek(&self) -> Next<'t>
        ensures { IsAtHand (rest self.now) result }
    {
        self.at_hand
    }

    /// Takes the token at hand.
    #[tactic(auto, using(crate::proofs::Remaining::all_behind, crate::proofs::Remaining::joined, crate::proofs::Remaining::joined_at_end, crate::proofs::Remaining::left_behind))]
    pub fn pass(&mut self)
        requires { rest self.old ≢ [] }
        ensures rest { rest self.new ≡ drop 1 (rest self.old) }
        ensures nearer { left self.new < left self.old }
    {
        self.at_hand = token_at(self.tokens, self.next);
        if self.next < self.tokens.len() {
            self.next += 1;
        }
    }
}

impl<'t> Next<'t> {
    ghost use Rattle.std.specs.Prelude.{◌≡◌};
    ghost use Rattle.fir_parse.specs.working.AtHand.{stop_at};

    /// Why nothing is read where this token is not expected.
    pub fn refused(&self) -> Stop
        ensures { result ≡ stop_at self.now.lexeme self.now.place }
    {
        match self.lexeme {
            Lexeme::End => Stop::AtEnd,
            _ => Stop::Fault(FirFault::Syntax(self.place)),
        }
    }
}

//! The parser's place among the tokens.

use crate::stop::Stop;
use std::alloc::Global;
use ver_lex::{Next, Tokens};

/// The way through the tokens of a text.
#[derive(Drop)]
pub struct Parser<'t> {
    pub alloc: Global,
    pub tokens: &'t Tokens,
    /// The index of the token at hand.
    pub next: usize,
    /// How many braces are open before it.
    pub depth: u32,
}

impl<'t> Parser<'t> {
    ghost use Rattle.std.specs.Prelude.{◌≡◌, ◌≢◌, ◌<◌, [], drop};
    ghost use Rattle.ver_parse.specs.working.Reads.{left, rest, IsAtHand, IsRefusal};

    /// The way from the first token on.
    pub fn new(alloc: Global, tokens: &'t Tokens) -> Parser<'t>
        ensures rest { rest result ≡ tokens.now.tokens }
        ensures depth { result.depth ≡ 0 }
        ensures tokens { result.tokens.now ≡ tokens.now }
    {
        Parser {
            alloc,
            tokens,
            next: 0,
            depth: 0,
        }
    }

    /// The token at hand; or the text ends.
    pub fn peek(&self) -> Result<Next<'t>, Stop>
        ensures { IsAtHand self.now result }
    {
        match self.tokens.get(self.next) {
            Some(next) => Ok(next),
            None => Err(Stop::AtEnd),
        }
    }

    /// Why nothing is read where the token at hand is not expected.
    pub fn unexpected(&self) -> Stop
        ensures { IsRefusal self.now result }
    {
        match self.peek() {
            Ok(next) => Stop::Syntax(next.place),
            Err(stop) => stop,
        }
    }

    /// Takes the token at hand, which opens and closes no brace.
    pub fn pass(&mut self)
        requires { rest self.old ≢ [] }
        ensures rest { rest self.new ≡ drop 1 (rest self.old) }
        ensures depth { self.new.depth ≡ self.old.depth }
        ensures tokens { self.new.tokens.now ≡ self.old.tokens.now }
        ensures nearer { left self.new < left self.old }
    {
        if self.next < self.tokens.len() {
            self.next += 1;
        }
    }
}

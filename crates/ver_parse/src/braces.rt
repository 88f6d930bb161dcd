//! Braces, of which at most 256 are open.

use crate::fixed::{Fixed, is_fixed};
use crate::parser::Parser;
use crate::stop::Stop;

impl<'t> Parser<'t> {
    ghost use Rattle.std.specs.Prelude.{◌<◌, ◌≤◌, [], ◌∷◌, IfErr, IfOk, OnOk};
    ghost use Rattle.ver_ast.specs.Tokens.{sign};
    ghost use Rattle.ver_parse.specs.working.Fixed.{TriesBrace};
    ghost use Rattle.ver_parse.specs.working.Reads.{left, Gives, Halts};
    ghost use Rattle.ver_parse.specs.working.Symbols.{a_token};

    /// Takes the token at hand if it is a brace that opens: whether it was. One brace too many stops.
    pub fn takes_brace(&mut self) -> Result<bool, Stop>
        ensures tries { TriesBrace self.old self.new result }
        ensures nearer { OnOk result (left self.new ≤ left self.old) }
    {
        let next = self.peek()?;
        let found = is_fixed(next.lexeme, Fixed::Sign(b'{'));
        if found {
            if self.depth >= 256 {
                return Err(Stop::Depth(next.place));
            }
            self.pass();
            self.depth += 1;
            return Ok(true);
        }
        Ok(false)
    }

    /// A brace that opens.
    pub fn opening_brace(&mut self) -> Result<(), Stop>
        ensures gives { IfOk result (λ u. Gives (a_token (sign 123) ∷ []) (sign 123 ∷ []) self.old self.new) }
        ensures halts { IfErr result (λ s. Halts (a_token (sign 123) ∷ []) self.old s) }
        ensures nearer { OnOk result (left self.new < left self.old) }
    {
        if self.takes_brace()? {
            Ok(())
        } else {
            Err(self.unexpected())
        }
    }

    /// A brace that closes.
    pub fn closing_brace(&mut self) -> Result<(), Stop>
        ensures gives { IfOk result (λ u. Gives (a_token (sign 125) ∷ []) (sign 125 ∷ []) self.old self.new) }
        ensures halts { IfErr result (λ s. Halts (a_token (sign 125) ∷ []) self.old s) }
        ensures nearer { OnOk result (left self.new < left self.old) }
    {
        let next = self.peek()?;
        let found = is_fixed(next.lexeme, Fixed::Sign(b'}'));
        if found {
            self.pass();
            self.depth = self.depth.saturating_sub(1);
            Ok(())
        } else {
            Err(self.unexpected())
        }
    }
}

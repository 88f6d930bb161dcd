//! Tokens that are spelled in one way.

ghost use Rattle.std.specs.Prelude.{◌≡◌};
ghost use Rattle.ver_ast.specs.Tokens.{VToken};
ghost use Rattle.ver_lex.specs.working.Lexemes.{Sees};
ghost use Rattle.ver_parse.specs.working.Fixed.{fixed_token};
ghost use Rattle.ver_parse.specs.working.Steps.{same_token};

use crate::parser::Parser;
use crate::stop::Stop;
use ver_lex::Lexeme;

/// A token of the grammar that is spelled in one way.
#[derive(Clone, Copy)]
pub enum Fixed<'a> {
    Word(&'a [u8]),
    /// The digit 0 of a range or a depth, alone.
    Zero,
    Sign(u8),
    Double(u8, u8),
    SignedShift,
    SignedWord,
}

/// Whether a token is this one.
pub fn is_fixed(lexeme: Lexeme<'_>, fixed: Fixed<'_>) -> bool
    ensures { (t : VToken) → Sees lexeme.entry t → result ≡ same_token (fixed_token fixed.entry) t }
{
    match (fixed, lexeme) {
        (Fixed::Word(wanted), Lexeme::Word(found)) => found == wanted,
        (Fixed::Zero, Lexeme::Zero) => true,
        (Fixed::Sign(wanted), Lexeme::Sign(found)) => found == wanted,
        (Fixed::Double(first, second), Lexeme::Double(one, other)) => {
            one == first && other == second
        }
        (Fixed::SignedShift, Lexeme::SignedShift) => true,
        (Fixed::SignedWord, Lexeme::SignedWord) => true,
        _ => false,
    }
}

impl<'t> Parser<'t> {
    ghost use Rattle.std.specs.Prelude.{◌≡◌, ◌<◌, ◌≤◌, [], ◌∷◌, true, IfErr, IfOk, OnOk};
    ghost use Rattle.ver_parse.specs.working.Fixed.{fixed_token, is_plain, Tries};
    ghost use Rattle.ver_parse.specs.working.Reads.{left, Gives, Halts};
    ghost use Rattle.ver_parse.specs.working.Symbols.{a_token};

    /// Takes the token at hand if it is this one, which is no brace: whether it was.
    pub fn takes(&mut self, fixed: Fixed<'_>) -> Result<bool, Stop>
        requires { is_plain (fixed_token fixed) ≡ true }
        ensures tries { Tries (fixed_token fixed.entry) self.old self.new result }
        ensures nearer { OnOk result (left self.new ≤ left self.old) }
    {
        let next = self.peek()?;
        let found = is_fixed(next.lexeme, fixed);
        if found {
            self.pass();
        }
        Ok(found)
    }

    /// Takes this token, which is no brace.
    pub fn token(&mut self, fixed: Fixed<'_>) -> Result<(), Stop>
        requires { is_plain (fixed_token fixed) ≡ true }
        ensures gives { IfOk result (λ u. Gives (a_token (fixed_token fixed.entry) ∷ []) (fixed_token fixed.entry ∷ []) self.old self.new) }
        ensures halts { IfErr result (λ s. Halts (a_token (fixed_token fixed.entry) ∷ []) self.old s) }
        ensures nearer { OnOk result (left self.new < left self.old) }
    {
        if self.takes(fixed)? {
            Ok(())
        } else {
            Err(self.unexpected())
        }
    }
}

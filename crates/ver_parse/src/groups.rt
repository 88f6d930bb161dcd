//! Tokens that stand together.

use crate::fixed::Fixed;
use crate::parser::Parser;
use crate::stop::Stop;
use fir_base::Name;
use ver_ast::Atom;

impl<'t> Parser<'t> {
    ghost use Rattle.std.specs.Prelude.{◌<◌, ◌≤◌, [], ◌∷◌, ◌++◌, codes, IfErr, IfOk, OnOk};
    ghost use Rattle.ver_words.specs.Names.{IsName};
    ghost use Rattle.ver_ast.specs.Grammar.{atom_tokens, range_tokens};
    ghost use Rattle.ver_ast.specs.Names.{atom_names};
    ghost use Rattle.ver_ast.specs.Spells.{AreVerilogNames};
    ghost use Rattle.ver_ast.specs.Tokens.{digit_zero, double, number, sign, word};
    ghost use Rattle.ver_parse.specs.working.Reads.{left, Gives, Halts};
    ghost use Rattle.ver_parse.specs.working.Steps.{source};
    ghost use Rattle.ver_parse.specs.working.Symbols.{a_name, a_number, a_range, a_token, an_atom};

    /// `[num:0]`, or nothing: the width in bits. It is 1 without a range, and 0 where num is 0.
    pub fn range(&mut self) -> Result<u32, Stop>
        ensures gives { IfOk result (λ n. Gives (a_range ∷ []) (range_tokens n) self.old self.new) }
        ensures halts { IfErr result (λ s. Halts (a_range ∷ []) self.old s) }
        ensures nearer { OnOk result (left self.new ≤ left self.old) }
    {
        if self.takes(Fixed::Sign(b'['))? {
            let high = self.range_end()?;
            Ok(width_to(high))
        } else {
            Ok(1)
        }
    }

    /// `num:0]`
    fn range_end(&mut self) -> Result<u32, Stop>
        ensures gives { IfOk result (λ n. Gives (a_number ∷ a_token (sign 58) ∷ a_token digit_zero ∷ a_token (sign 93) ∷ []) (number n ∷ sign 58 ∷ digit_zero ∷ sign 93 ∷ []) self.old self.new) }
        ensures halts { IfErr result (λ s. Halts (a_number ∷ a_token (sign 58) ∷ a_token digit_zero ∷ a_token (sign 93) ∷ []) self.old s) }
        ensures nearer { OnOk result (left self.new < left self.old) }
        ensures counted { IfOk result (λ n. n ≤ 4294967294) }
    {
        let high = self.number()?;
        self.token(Fixed::Sign(b':'))?;
        self.token(Fixed::Zero)?;
        self.token(Fixed::Sign(b']'))?;
        Ok(high)
    }

    /// `posedge name`
    pub fn edge(&mut self) -> Result<Name, Stop>
        ensures gives { IfOk result (λ n. Gives (a_token (word (codes "posedge")) ∷ a_name ∷ []) (word (codes "posedge") ∷ word n ∷ []) self.old self.new) }
        ensures halts { IfErr result (λ s. Halts (a_token (word (codes "posedge")) ∷ a_name ∷ []) self.old s) }
        ensures nearer { OnOk result (left self.new < left self.old) }
        ensures named { IfOk result IsName }
    {
        self.token(Fixed::Word(b"posedge"))?;
        self.name()
    }

    /// `<= atom ;`
    pub fn source(&mut self) -> Result<Atom, Stop>
        ensures gives { IfOk result (λ a. Gives (source []) (double 60 61 ∷ atom_tokens a ++ sign 59 ∷ []) self.old self.new) }
        ensures halts { IfErr result (λ s. Halts (source []) self.old s) }
        ensures nearer { OnOk result (left self.new < left self.old) }
        ensures named { IfOk result (λ a. AreVerilogNames (atom_names a)) }
    {
        self.token(Fixed::Double(b'<', b'='))?;
        let atom = self.atom()?;
        self.token(Fixed::Sign(b';'))?;
        Ok(atom)
    }

    /// `( atom )`
    pub fn in_round(&mut self) -> Result<Atom, Stop>
        ensures gives { IfOk result (λ a. Gives (a_token (sign 40) ∷ an_atom ∷ a_token (sign 41) ∷ []) (sign 40 ∷ atom_tokens a ++ sign 41 ∷ []) self.old self.new) }
        ensures halts { IfErr result (λ s. Halts (a_token (sign 40) ∷ an_atom ∷ a_token (sign 41) ∷ []) self.old s) }
        ensures nearer { OnOk result (left self.new < left self.old) }
        ensures named { IfOk result (λ a. AreVerilogNames (atom_names a)) }
    {
        self.token(Fixed::Sign(b'('))?;
        let atom = self.atom()?;
        self.token(Fixed::Sign(b')'))?;
        Ok(atom)
    }

    /// `atom ]`
    pub fn index(&mut self) -> Result<Atom, Stop>
        ensures gives { IfOk result (λ a. Gives (an_atom ∷ a_token (sign 93) ∷ []) (atom_tokens a ++ sign 93 ∷ []) self.old self.new) }
        ensures halts { IfErr result (λ s. Halts (an_atom ∷ a_token (sign 93) ∷ []) self.old s) }
        ensures nearer { OnOk result (left self.new < left self.old) }
        ensures named { IfOk result (λ a. AreVerilogNames (atom_names a)) }
    {
        let index = self.atom()?;
        self.token(Fixed::Sign(b']'))?;
        Ok(index)
    }
}

ghost use Rattle.std.specs.Prelude.{◌≡◌, ◌≤◌};
ghost use Rattle.ver_ast.specs.Grammar.{range_tokens};
ghost use Rattle.ver_ast.specs.Tokens.{digit_zero, number, sign};
ghost use Rattle.std.specs.Prelude.{[], ◌∷◌};

/// The width of a vector whose low end is 0.
fn width_to(high: u32) -> u32
    requires { high ≤ 4294967294 }
    ensures { range_tokens result ≡ sign 91 ∷ number high ∷ sign 58 ∷ digit_zero ∷ sign 93 ∷ [] }
{
    if high == 0 { 0 } else { high + 1 }
}

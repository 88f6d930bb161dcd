//! Right sides of assigns (IEEE 1364-2005, 5.1).

use crate::fixed::Fixed;
use crate::parser::Parser;
use crate::stop::Stop;
use fir_base::Name;
use ver_ast::{Atom, AtomForm, Rhs};

impl<'t> Parser<'t> {
    ghost use Rattle.std.specs.Prelude.{◌≡◌, ◌<◌, ◌≤◌, [], ◌∷◌, ◌++◌, drop, length, IfErr, IfOk, OnOk};
    ghost use Rattle.ver_words.specs.Names.{IsName};
    ghost use Rattle.ver_ast.specs.Grammar.{atom_tokens, rhs_tokens, signed_tokens};
    ghost use Rattle.ver_ast.specs.ItemNames.{rhs_arrays};
    ghost use Rattle.ver_ast.specs.Names.{atom_names, rhs_names};
    ghost use Rattle.ver_ast.specs.Spells.{AreVerilogNames};
    ghost use Rattle.ver_ast.specs.Tokens.{sign, signed_word, word};
    ghost use Rattle.ver_parse.specs.working.Reads.{left, Gives, Halts, HasFront};
    ghost use Rattle.ver_parse.specs.working.Symbols.{a_name, a_side, a_token, an_atom, a_number, behind_atom, behind_bracket, behind_index, behind_side_name, behind_signed, other_side};

    /// A right side.
    pub fn side(&mut self) -> Result<Rhs, Stop>
        ensures gives { IfOk result (λ r. Gives (a_side ∷ []) (rhs_tokens r) self.old self.new) }
        ensures halts { IfErr result (λ s. Halts (a_side ∷ []) self.old s) }
        ensures nearer { OnOk result (left self.new < left self.old) }
        ensures named { IfOk result (λ r. AreVerilogNames (rhs_arrays r ++ rhs_names r)) }
    {
        if self.sees_word()? {
            self.named_side()
        } else if self.takes(Fixed::SignedWord)? {
            self.signed_side()
        } else {
            self.other_side()
        }
    }

    /// A right side that begins with no word.
    fn other_side(&mut self) -> Result<Rhs, Stop>
        ensures gives { IfOk result (λ r. Gives (other_side ∷ []) (rhs_tokens r) self.old self.new) }
        ensures halts { IfErr result (λ s. Halts (other_side ∷ []) self.old s) }
        ensures nearer { OnOk result (left self.new < left self.old) }
        ensures named { IfOk result (λ r. AreVerilogNames (rhs_arrays r ++ rhs_names r)) }
    {
        match self.unary()? {
            Some(op) => {
                let atom = self.atom()?;
                Ok(Rhs::Unary(op, atom))
            }
            None => self.atom_side(),
        }
    }

    /// A right side that begins with an operand, which is no name.
    fn atom_side(&mut self) -> Result<Rhs, Stop>
        ensures gives { IfOk result (λ r. Gives (an_atom ∷ behind_atom ∷ []) (rhs_tokens r) self.old self.new) }
        ensures halts { IfErr result (λ s. Halts (an_atom ∷ behind_atom ∷ []) self.old s) }
        ensures nearer { OnOk result (left self.new < left self.old) }
        ensures named { IfOk result (λ r. AreVerilogNames (rhs_arrays r ++ rhs_names r)) }
    {
        let first = self.atom()?;
        self.behind_atom(first)
    }

    /// What stands behind the first operand.
    fn behind_atom(&mut self, first: Atom) -> Result<Rhs, Stop>
        requires { AreVerilogNames (atom_names first) }
        ensures gives { IfOk result (λ r. Gives (behind_atom ∷ []) (drop (length (atom_tokens first)) (rhs_tokens r)) self.old self.new) }
        ensures halts { IfErr result (λ s. Halts (behind_atom ∷ []) self.old s) }
        ensures nearer { OnOk result (left self.new ≤ left self.old) }
        ensures front { IfOk result (λ r. HasFront (atom_tokens first) (rhs_tokens r)) }
        ensures named { IfOk result (λ r. AreVerilogNames (rhs_arrays r ++ rhs_names r)) }
    {
        if self.takes(Fixed::Sign(b'?'))? {
            return self.choices(first);
        }
        match self.binary()? {
            Some(op) => {
                let second = self.atom()?;
                Ok(Rhs::Binary(first, op, second))
            }
            None => Ok(Rhs::Atom(first)),
        }
    }

    /// `atom : atom`, behind a condition and its sign.
    fn choices(&mut self, condition: Atom) -> Result<Rhs, Stop>
        requires { AreVerilogNames (atom_names condition) }
        ensures gives { IfOk result (λ r. Gives (an_atom ∷ a_token (sign 58) ∷ an_atom ∷ []) (drop (length (atom_tokens condition ++ sign 63 ∷ [])) (rhs_tokens r)) self.old self.new) }
        ensures halts { IfErr result (λ s. Halts (an_atom ∷ a_token (sign 58) ∷ an_atom ∷ []) self.old s) }
        ensures nearer { OnOk result (left self.new < left self.old) }
        ensures front { IfOk result (λ r. HasFront (atom_tokens condition ++ sign 63 ∷ []) (rhs_tokens r)) }
        ensures named { IfOk result (λ r. AreVerilogNames (rhs_arrays r ++ rhs_names r)) }
    {
        let first = self.atom()?;
        self.token(Fixed::Sign(b':'))?;
        let second = self.atom()?;
        Ok(Rhs::Conditional(condition, first, second))
    }

    /// A right side that begins with a name.
    fn named_side(&mut self) -> Result<Rhs, Stop>
        ensures gives { IfOk result (λ r. Gives (a_name ∷ behind_side_name ∷ []) (rhs_tokens r) self.old self.new) }
        ensures halts { IfErr result (λ s. Halts (a_name ∷ behind_side_name ∷ []) self.old s) }
        ensures nearer { OnOk result (left self.new < left self.old) }
        ensures named { IfOk result (λ r. AreVerilogNames (rhs_arrays r ++ rhs_names r)) }
    {
        let name = self.name()?;
        self.behind_side_name(name)
    }

    /// What stands behind a name that begins a right side.
    fn behind_side_name(&mut self, name: Name) -> Result<Rhs, Stop>
        requires { IsName name }
        ensures gives { IfOk result (λ r. Gives (behind_side_name ∷ []) (drop 1 (rhs_tokens r)) self.old self.new) }
        ensures halts { IfErr result (λ s. Halts (behind_side_name ∷ []) self.old s) }
        ensures nearer { OnOk result (left self.new ≤ left self.old) }
        ensures front { IfOk result (λ r. HasFront (word name ∷ []) (rhs_tokens r)) }
        ensures named { IfOk result (λ r. AreVerilogNames (rhs_arrays r ++ rhs_names r)) }
    {
        if self.takes(Fixed::Sign(b'['))? {
            self.behind_bracket(name)
        } else {
            self.behind_atom(Atom {
                form: AtomForm::Net(name),
            })
        }
    }

    /// What stands behind a name and a bracket: a number makes a select, anything else the read of an array.
    fn behind_bracket(&mut self, name: Name) -> Result<Rhs, Stop>
        requires { IsName name }
        ensures gives { IfOk result (λ r. Gives (behind_bracket ∷ []) (drop 2 (rhs_tokens r)) self.old self.new) }
        ensures halts { IfErr result (λ s. Halts (behind_bracket ∷ []) self.old s) }
        ensures nearer { OnOk result (left self.new < left self.old) }
        ensures front { IfOk result (λ r. HasFront (word name ∷ sign 91 ∷ []) (rhs_tokens r)) }
        ensures named { IfOk result (λ r. AreVerilogNames (rhs_arrays r ++ rhs_names r)) }
    {
        if self.sees_number()? {
            self.selected_side(name)
        } else {
            let index = self.index()?;
            Ok(Rhs::Word(name, index))
        }
    }

    /// A right side whose first operand is a select, behind the bracket.
    fn selected_side(&mut self, name: Name) -> Result<Rhs, Stop>
        requires { IsName name }
        ensures gives { IfOk result (λ r. Gives (a_number ∷ behind_index ∷ behind_atom ∷ []) (drop 2 (rhs_tokens r)) self.old self.new) }
        ensures halts { IfErr result (λ s. Halts (a_number ∷ behind_index ∷ behind_atom ∷ []) self.old s) }
        ensures nearer { OnOk result (left self.new < left self.old) }
        ensures front { IfOk result (λ r. HasFront (word name ∷ sign 91 ∷ []) (rhs_tokens r)) }
        ensures named { IfOk result (λ r. AreVerilogNames (rhs_arrays r ++ rhs_names r)) }
    {
        let high = self.number()?;
        let first = self.index_end(name, high)?;
        self.behind_atom(first)
    }

    /// `$signed ( atom )`
    fn signed_operand(&mut self) -> Result<Atom, Stop>
        ensures gives { IfOk result (λ a. Gives (a_token signed_word ∷ a_token (sign 40) ∷ an_atom ∷ a_token (sign 41) ∷ []) (signed_tokens a) self.old self.new) }
        ensures halts { IfErr result (λ s. Halts (a_token signed_word ∷ a_token (sign 40) ∷ an_atom ∷ a_token (sign 41) ∷ []) self.old s) }
        ensures nearer { OnOk result (left self.new < left self.old) }
        ensures named { IfOk result (λ a. AreVerilogNames (atom_names a)) }
    {
        self.token(Fixed::SignedWord)?;
        self.in_round()
    }

    /// A right side that begins with a signed operand, behind its first word.
    fn signed_side(&mut self) -> Result<Rhs, Stop>
        ensures gives { IfOk result (λ r. Gives (a_token (sign 40) ∷ an_atom ∷ a_token (sign 41) ∷ behind_signed ∷ []) (drop 1 (rhs_tokens r)) self.old self.new) }
        ensures halts { IfErr result (λ s. Halts (a_token (sign 40) ∷ an_atom ∷ a_token (sign 41) ∷ behind_signed ∷ []) self.old s) }
        ensures nearer { OnOk result (left self.new < left self.old) }
        ensures front { IfOk result (λ r. HasFront (signed_word ∷ []) (rhs_tokens r)) }
        ensures named { IfOk result (λ r. AreVerilogNames (rhs_arrays r ++ rhs_names r)) }
    {
        let first = self.in_round()?;
        self.behind_signed(first)
    }

    /// What stands behind the first signed operand.
    fn behind_signed(&mut self, first: Atom) -> Result<Rhs, Stop>
        requires { AreVerilogNames (atom_names first) }
        ensures gives { IfOk result (λ r. Gives (behind_signed ∷ []) (drop (length (signed_tokens first)) (rhs_tokens r)) self.old self.new) }
        ensures halts { IfErr result (λ s. Halts (behind_signed ∷ []) self.old s) }
        ensures nearer { OnOk result (left self.new < left self.old) }
        ensures front { IfOk result (λ r. HasFront (signed_tokens first) (rhs_tokens r)) }
        ensures named { IfOk result (λ r. AreVerilogNames (rhs_arrays r ++ rhs_names r)) }
    {
        if self.takes(Fixed::SignedShift)? {
            let second = self.atom()?;
            Ok(Rhs::SignedShift(first, second))
        } else {
            let op = self.signed()?;
            let second = self.signed_operand()?;
            Ok(Rhs::Signed(first, op, second))
        }
    }
}

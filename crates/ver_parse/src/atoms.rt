//! Operands (IEEE 1364-2005, 5.1.14, 5.2).

use crate::fixed::Fixed;
use crate::parser::Parser;
use crate::stop::Stop;
use fir_base::Name;
use ver_ast::{Atom, AtomForm};

impl<'t> Parser<'t> {
    ghost use Rattle.std.specs.Prelude.{◌≡◌, ◌<◌, ◌≤◌, [], ◌∷◌, ◌++◌, drop, IfErr, IfOk, OnOk};
    ghost use Rattle.ver_words.specs.Names.{IsName};
    ghost use Rattle.ver_ast.specs.Atoms.{atoms_of};
    ghost use Rattle.ver_ast.specs.Grammar.{atom_tokens, next_atom_tokens};
    ghost use Rattle.ver_ast.specs.Names.{atom_names, joined_names};
    ghost use Rattle.ver_ast.specs.Spells.{AreVerilogNames};
    ghost use Rattle.ver_ast.specs.Tokens.{number, sign, word};
    ghost use Rattle.ver_parse.specs.working.Reads.{left, Gives, Halts, HasFront};
    ghost use Rattle.ver_parse.specs.working.Symbols.{a_name, a_number, a_select, a_token, an_atom, behind_index, braced, more_atoms};

    /// An operand.
    #[cycle(atoms)]
    pub fn atom(&mut self) -> Result<Atom, Stop>
        ensures gives { IfOk result (λ a. Gives (an_atom ∷ []) (atom_tokens a) self.old self.new) }
        ensures halts { IfErr result (λ s. Halts (an_atom ∷ []) self.old s) }
        ensures nearer { OnOk result (left self.new < left self.old) }
        ensures named { IfOk result (λ a. AreVerilogNames (atom_names a)) }
    {
        if self.takes_brace()? {
            self.braced()
        } else if self.sees_word()? {
            self.selected()
        } else {
            let constant = self.constant()?;
            Ok(Atom {
                form: AtomForm::Constant(constant),
            })
        }
    }

    /// A name, and what is selected of it.
    fn selected(&mut self) -> Result<Atom, Stop>
        ensures gives { IfOk result (λ a. Gives (a_name ∷ a_select ∷ []) (atom_tokens a) self.old self.new) }
        ensures halts { IfErr result (λ s. Halts (a_name ∷ a_select ∷ []) self.old s) }
        ensures nearer { OnOk result (left self.new < left self.old) }
        ensures named { IfOk result (λ a. AreVerilogNames (atom_names a)) }
    {
        let name = self.name()?;
        self.select(name)
    }

    /// What is selected behind a name, or nothing.
    fn select(&mut self, name: Name) -> Result<Atom, Stop>
        requires { IsName name }
        ensures gives { IfOk result (λ a. Gives (a_select ∷ []) (drop 1 (atom_tokens a)) self.old self.new) }
        ensures halts { IfErr result (λ s. Halts (a_select ∷ []) self.old s) }
        ensures nearer { OnOk result (left self.new ≤ left self.old) }
        ensures front { IfOk result (λ a. HasFront (word name ∷ []) (atom_tokens a)) }
        ensures named { IfOk result (λ a. AreVerilogNames (atom_names a)) }
    {
        if self.takes(Fixed::Sign(b'['))? {
            let high = self.number()?;
            self.index_end(name, high)
        } else {
            Ok(Atom {
                form: AtomForm::Net(name),
            })
        }
    }

    /// What stands behind a name, a bracket and a number.
    pub fn index_end(&mut self, name: Name, high: u32) -> Result<Atom, Stop>
        requires { IsName name }
        ensures gives { IfOk result (λ a. Gives (behind_index ∷ []) (drop 3 (atom_tokens a)) self.old self.new) }
        ensures halts { IfErr result (λ s. Halts (behind_index ∷ []) self.old s) }
        ensures nearer { OnOk result (left self.new < left self.old) }
        ensures front { IfOk result (λ a. HasFront (word name ∷ sign 91 ∷ number high ∷ []) (atom_tokens a)) }
        ensures named { IfOk result (λ a. AreVerilogNames (atom_names a)) }
    {
        if self.takes(Fixed::Sign(b']'))? {
            Ok(Atom {
                form: AtomForm::BitSelect(name, high),
            })
        } else {
            let low = self.low_end()?;
            Ok(Atom {
                form: AtomForm::PartSelect(name, high, low),
            })
        }
    }

    /// `: num ]`
    fn low_end(&mut self) -> Result<u32, Stop>
        ensures gives { IfOk result (λ n. Gives (a_token (sign 58) ∷ a_number ∷ a_token (sign 93) ∷ []) (sign 58 ∷ number n ∷ sign 93 ∷ []) self.old self.new) }
        ensures halts { IfErr result (λ s. Halts (a_token (sign 58) ∷ a_number ∷ a_token (sign 93) ∷ []) self.old s) }
        ensures nearer { OnOk result (left self.new < left self.old) }
    {
        self.token(Fixed::Sign(b':'))?;
        let low = self.number()?;
        self.token(Fixed::Sign(b']'))?;
        Ok(low)
    }

    /// A repetition or a concatenation, behind its brace.
    #[cycle(atoms)]
    fn braced(&mut self) -> Result<Atom, Stop>
        ensures gives { IfOk result (λ a. Gives (braced ∷ []) (drop 1 (atom_tokens a)) self.old self.new) }
        ensures halts { IfErr result (λ s. Halts (braced ∷ []) self.old s) }
        ensures nearer { OnOk result (left self.new < left self.old) }
        ensures front { IfOk result (λ a. HasFront (sign 123 ∷ []) (atom_tokens a)) }
        ensures named { IfOk result (λ a. AreVerilogNames (atom_names a)) }
    {
        if self.sees_number()? {
            self.repetition()
        } else {
            self.concatenation()
        }
    }

    /// `num { atom } }`
    #[cycle(atoms)]
    fn repetition(&mut self) -> Result<Atom, Stop>
        ensures gives { IfOk result (λ a. Gives (a_number ∷ a_token (sign 123) ∷ an_atom ∷ a_token (sign 125) ∷ a_token (sign 125) ∷ []) (drop 1 (atom_tokens a)) self.old self.new) }
        ensures halts { IfErr result (λ s. Halts (a_number ∷ a_token (sign 123) ∷ an_atom ∷ a_token (sign 125) ∷ a_token (sign 125) ∷ []) self.old s) }
        ensures nearer { OnOk result (left self.new < left self.old) }
        ensures front { IfOk result (λ a. HasFront (sign 123 ∷ []) (atom_tokens a)) }
        ensures named { IfOk result (λ a. AreVerilogNames (atom_names a)) }
    {
        let count = self.number()?;
        self.opening_brace()?;
        let atom = self.atom()?;
        self.closing_brace()?;
        self.closing_brace()?;
        Ok(Atom {
            form: AtomForm::Repeat(count, Box::new(self.alloc, atom)?),
        })
    }

    /// `atom { , atom } }`
    #[cycle(atoms)]
    fn concatenation(&mut self) -> Result<Atom, Stop>
        ensures gives { IfOk result (λ a. Gives (an_atom ∷ more_atoms ∷ []) (drop 1 (atom_tokens a)) self.old self.new) }
        ensures halts { IfErr result (λ s. Halts (an_atom ∷ more_atoms ∷ []) self.old s) }
        ensures nearer { OnOk result (left self.new < left self.old) }
        ensures front { IfOk result (λ a. HasFront (sign 123 ∷ []) (atom_tokens a)) }
        ensures named { IfOk result (λ a. AreVerilogNames (atom_names a)) }
    {
        let first = self.atom()?;
        let rest = self.more_atoms()?;
        Ok(Atom {
            form: AtomForm::Concat(Box::new(self.alloc, first)?, rest),
        })
    }

    /// `{ , atom } }`
    #[cycle(atoms)]
    fn more_atoms(&mut self) -> Result<Vec<Atom>, Stop>
        ensures gives { IfOk result (λ v. Gives (more_atoms ∷ []) (next_atom_tokens (atoms_of v.items) ++ sign 125 ∷ []) self.old self.new) }
        ensures halts { IfErr result (λ s. Halts (more_atoms ∷ []) self.old s) }
        ensures nearer { OnOk result (left self.new < left self.old) }
        ensures named { IfOk result (λ v. AreVerilogNames (joined_names (atoms_of v.items))) }
    {
        let mut atoms = Vec::new(self.alloc);
        while self.takes(Fixed::Sign(b','))? {
            atoms.push(self.atom()?)?;
        }
        self.closing_brace()?;
        Ok(atoms)
    }
}

//! Writes of an array (IEEE 1364-2005, 9.4, 9.8.1).

use crate::fixed::Fixed;
use crate::parser::Parser;
use crate::stop::Stop;
use ver_ast::Write;

impl<'t> Parser<'t> {
    ghost use Rattle.std.specs.Prelude.{◌<◌, ◌≤◌, [], ◌∷◌, ◌++◌, codes, drop, flat_map, IfErr, IfOk, OnOk};
    ghost use Rattle.ver_ast.specs.Grammar.{write_tokens};
    ghost use Rattle.ver_ast.specs.ItemNames.{write_names};
    ghost use Rattle.ver_ast.specs.Spells.{AreVerilogNames};
    ghost use Rattle.ver_ast.specs.Tokens.{sign, word};
    ghost use Rattle.ver_parse.specs.working.Reads.{left, Gives, Halts, HasFront};
    ghost use Rattle.ver_parse.specs.working.Steps.{source};
    ghost use Rattle.ver_parse.specs.working.Symbols.{a_name, a_token, an_atom, writes};

    /// The writes of a block, behind its `begin` and with its `end`.
    pub fn writes(&mut self) -> Result<Vec<Write>, Stop>
        ensures gives { IfOk result (λ v. Gives (writes ∷ []) (flat_map write_tokens v.items ++ word (codes "end") ∷ []) self.old self.new) }
        ensures halts { IfErr result (λ s. Halts (writes ∷ []) self.old s) }
        ensures nearer { OnOk result (left self.new < left self.old) }
        ensures named { IfOk result (λ v. AreVerilogNames (flat_map write_names v.items)) }
    {
        let mut writes = Vec::new(self.alloc);
        while self.takes(Fixed::Word(b"if"))? {
            writes.push(self.write()?)?;
        }
        self.token(Fixed::Word(b"end"))?;
        Ok(writes)
    }

    /// `( atom ) name [ atom ] <= atom ;`
    fn write(&mut self) -> Result<Write, Stop>
        ensures gives { IfOk result (λ w. Gives (a_token (sign 40) ∷ an_atom ∷ a_token (sign 41) ∷ a_name ∷ a_token (sign 91) ∷ an_atom ∷ a_token (sign 93) ∷ source []) (drop 1 (write_tokens w)) self.old self.new) }
        ensures halts { IfErr result (λ s. Halts (a_token (sign 40) ∷ an_atom ∷ a_token (sign 41) ∷ a_name ∷ a_token (sign 91) ∷ an_atom ∷ a_token (sign 93) ∷ source []) self.old s) }
        ensures nearer { OnOk result (left self.new < left self.old) }
        ensures front { IfOk result (λ w. HasFront (word (codes "if") ∷ []) (write_tokens w)) }
        ensures named { IfOk result (λ w. AreVerilogNames (write_names w)) }
    {
        let condition = self.in_round()?;
        let array = self.name()?;
        self.token(Fixed::Sign(b'['))?;
        let index = self.index()?;
        let source = self.source()?;
        Ok(Write {
            condition,
            array,
            index,
            source,
        })
    }
}

//! The module (IEEE 1364-2005, 12.1).

use crate::fixed::Fixed;
use crate::parser::Parser;
use crate::places::places_of;
use crate::stop::Stop;
use fir_base::{Name, Seq};
use ver_ast::Verilog;

impl<'t> Parser<'t> {
    ghost use Rattle.std.specs.Prelude.{◌≡◌, ◌<◌, ◌≤◌, [], ◌∷◌, ◌++◌, codes, IfErr, IfOk, OnOk};
    ghost use Rattle.std.specs.List.{AllByRecursion};
    ghost use Rattle.ver_words.specs.Names.{IsName};
    ghost use Rattle.ver_ast.specs.Grammar.{module_tokens};
    ghost use Rattle.ver_ast.specs.Spells.{places_of, HasNames, HasNumberInType};
    ghost use Rattle.ver_ast.specs.Tokens.{sign, word};
    ghost use Rattle.ver_parse.specs.working.Reading.{whole};
    ghost use Rattle.ver_parse.specs.working.Reads.{left, Gives, Halts};
    ghost use Rattle.ver_parse.specs.working.Symbols.{a_name, a_token};

    /// A module, with the places of all tokens.
    pub fn module(&mut self) -> Result<Verilog, Stop>
        ensures gives { IfOk result (λ v. Gives (whole) (module_tokens v) self.old self.new) }
        ensures halts { IfErr result (λ s. Halts (whole) self.old s) }
        ensures nearer { OnOk result (left self.new < left self.old) }
        ensures places { IfOk result (λ v. v.places ≡ places_of self.old.tokens.now.tokens) }
        ensures named { IfOk result HasNames }
        ensures in_type { IfOk result (λ v. AllByRecursion HasNumberInType v.items) }
    {
        let places = places_of(self.alloc, self.tokens)?;
        let name = self.heading()?;
        let ports = self.ports()?;
        self.token(Fixed::Sign(b';'))?;
        let items = self.items()?;
        Ok(Verilog {
            name,
            ports: Seq::from_vec(ports),
            items: Seq::from_vec(items),
            places: Seq::from_vec(places),
        })
    }

    /// `module name (`
    fn heading(&mut self) -> Result<Name, Stop>
        ensures gives { IfOk result (λ n. Gives (a_token (word (codes "module")) ∷ a_name ∷ a_token (sign 40) ∷ []) (word (codes "module") ∷ word n ∷ sign 40 ∷ []) self.old self.new) }
        ensures halts { IfErr result (λ s. Halts (a_token (word (codes "module")) ∷ a_name ∷ a_token (sign 40) ∷ []) self.old s) }
        ensures nearer { OnOk result (left self.new < left self.old) }
        ensures named { IfOk result IsName }
    {
        self.token(Fixed::Word(b"module"))?;
        let name = self.name()?;
        self.token(Fixed::Sign(b'('))?;
        Ok(name)
    }
}

//! Items of a module (IEEE 1364-2005, 12.1).

use crate::fixed::Fixed;
use crate::keyword::{Keyword, keyword_of};
use crate::parser::Parser;
use crate::stop::Stop;
use ver_ast::Item;
use ver_lex::Lexeme;

impl<'t> Parser<'t> {
    ghost use Rattle.std.specs.Prelude.{◌<◌, ◌≤◌, [], ◌∷◌, ◌++◌, codes, flat_map, IfErr, IfOk, OnOk};
    ghost use Rattle.std.specs.List.{AllByRecursion};
    ghost use Rattle.ver_ast.specs.Grammar.{item_tokens};
    ghost use Rattle.ver_ast.specs.Spells.{HasItemNames, HasNumberInType};
    ghost use Rattle.ver_ast.specs.Tokens.{word};
    ghost use Rattle.ver_parse.specs.working.Reads.{left, Gives, Halts, Leads};
    ghost use Rattle.ver_parse.specs.working.Steps.{behind_keyword, keyword_word};
    ghost use Rattle.ver_parse.specs.working.Symbols.{an_item, items};

    /// The items of a module, with its `endmodule`.
    pub fn items(&mut self) -> Result<Vec<Item>, Stop>
        ensures gives { IfOk result (λ v. Gives (items ∷ []) (flat_map item_tokens v.items ++ word (codes "endmodule") ∷ []) self.old self.new) }
        ensures halts { IfErr result (λ s. Halts (items ∷ []) self.old s) }
        ensures nearer { OnOk result (left self.new < left self.old) }
        ensures named { IfOk result (λ v. AllByRecursion HasItemNames v.items) }
        ensures in_type { IfOk result (λ v. AllByRecursion HasNumberInType v.items) }
    {
        let mut items = Vec::new(self.alloc);
        while !self.takes(Fixed::Word(b"endmodule"))? {
            items.push(self.item()?)?;
        }
        Ok(items)
    }

    /// An item.
    fn item(&mut self) -> Result<Item, Stop>
        ensures gives { IfOk result (λ i. Gives (an_item ∷ []) (item_tokens i) self.old self.new) }
        ensures halts { IfErr result (λ s. Halts (an_item ∷ []) self.old s) }
        ensures nearer { OnOk result (left self.new < left self.old) }
        ensures named { IfOk result HasItemNames }
        ensures in_type { IfOk result HasNumberInType }
    {
        match self.keyword()? {
            Keyword::Wire => self.wire(),
            Keyword::Reg => self.register(),
            Keyword::Assign => self.assign(),
            Keyword::Always => self.always(),
        }
    }

    /// The first word of an item.
    fn keyword(&mut self) -> Result<Keyword, Stop>
        ensures gives { IfOk result (λ k. Leads (an_item ∷ []) (word (keyword_word k) ∷ []) (behind_keyword k) self.old self.new) }
        ensures halts { IfErr result (λ s. Halts (an_item ∷ []) self.old s) }
        ensures nearer { OnOk result (left self.new < left self.old) }
    {
        match self.peek()?.lexeme {
            Lexeme::Word(spelling) => match keyword_of(spelling) {
                Some(keyword) => {
                    self.pass();
                    Ok(keyword)
                }
                None => Err(self.unexpected()),
            },
            _ => Err(self.unexpected()),
        }
    }
}

//! Declarations and assigns (IEEE 1364-2005, 4.2, 4.9, 6.1). Each function reads what stands behind the keyword.

use crate::fixed::Fixed;
use crate::parser::Parser;
use crate::stop::Stop;
use fir_base::Name;
use ver_ast::{Array, Assign, Item, Net};

impl<'t> Parser<'t> {
    ghost use Rattle.std.specs.Prelude.{◌<◌, ◌≤◌, [], ◌∷◌, ◌++◌, codes, drop, length, IfErr, IfOk, OnOk};
    ghost use Rattle.ver_words.specs.Names.{IsName};
    ghost use Rattle.ver_ast.specs.Grammar.{item_tokens, range_tokens};
    ghost use Rattle.ver_ast.specs.Spells.{HasItemNames, HasNumberInType};
    ghost use Rattle.ver_ast.specs.Tokens.{digit_zero, number, sign, word};
    ghost use Rattle.ver_parse.specs.working.Reads.{left, Gives, Halts, HasFront};
    ghost use Rattle.ver_parse.specs.working.Symbols.{a_name, a_number, a_range, a_side, a_token, behind_register};

    /// `[range] name ;`
    pub fn wire(&mut self) -> Result<Item, Stop>
        ensures gives { IfOk result (λ i. Gives (a_range ∷ a_name ∷ a_token (sign 59) ∷ []) (drop 1 (item_tokens i)) self.old self.new) }
        ensures halts { IfErr result (λ s. Halts (a_range ∷ a_name ∷ a_token (sign 59) ∷ []) self.old s) }
        ensures nearer { OnOk result (left self.new < left self.old) }
        ensures front { IfOk result (λ i. HasFront (word (codes "wire") ∷ []) (item_tokens i)) }
        ensures named { IfOk result HasItemNames }
        ensures in_type { IfOk result HasNumberInType }
    {
        let width = self.range()?;
        let name = self.name()?;
        self.token(Fixed::Sign(b';'))?;
        Ok(Item::Wire(Net { width, name }))
    }

    /// `[range] name ;` or `[range] name [ 0 : num ] ;`
    pub fn register(&mut self) -> Result<Item, Stop>
        ensures gives { IfOk result (λ i. Gives (a_range ∷ a_name ∷ behind_register ∷ []) (drop 1 (item_tokens i)) self.old self.new) }
        ensures halts { IfErr result (λ s. Halts (a_range ∷ a_name ∷ behind_register ∷ []) self.old s) }
        ensures nearer { OnOk result (left self.new < left self.old) }
        ensures front { IfOk result (λ i. HasFront (word (codes "reg") ∷ []) (item_tokens i)) }
        ensures named { IfOk result HasItemNames }
        ensures in_type { IfOk result HasNumberInType }
    {
        let width = self.range()?;
        let name = self.name()?;
        self.behind_register(width, name)
    }

    /// What stands behind the name of a register.
    fn behind_register(&mut self, width: u32, name: Name) -> Result<Item, Stop>
        requires { IsName name }
        ensures gives { IfOk result (λ i. Gives (behind_register ∷ []) (drop (length (word (codes "reg") ∷ range_tokens width ++ word name ∷ [])) (item_tokens i)) self.old self.new) }
        ensures halts { IfErr result (λ s. Halts (behind_register ∷ []) self.old s) }
        ensures nearer { OnOk result (left self.new < left self.old) }
        ensures front { IfOk result (λ i. HasFront (word (codes "reg") ∷ range_tokens width ++ word name ∷ []) (item_tokens i)) }
        ensures named { IfOk result HasItemNames }
        ensures in_type { IfOk result HasNumberInType }
    {
        if self.takes(Fixed::Sign(b';'))? {
            Ok(Item::Reg(Net { width, name }))
        } else {
            let last = self.depth_end()?;
            Ok(Item::Array(Array { width, last, name }))
        }
    }

    /// `[ 0 : num ] ;`
    fn depth_end(&mut self) -> Result<u32, Stop>
        ensures gives { IfOk result (λ n. Gives (a_token (sign 91) ∷ a_token digit_zero ∷ a_token (sign 58) ∷ a_number ∷ a_token (sign 93) ∷ a_token (sign 59) ∷ []) (sign 91 ∷ digit_zero ∷ sign 58 ∷ number n ∷ sign 93 ∷ sign 59 ∷ []) self.old self.new) }
        ensures halts { IfErr result (λ s. Halts (a_token (sign 91) ∷ a_token digit_zero ∷ a_token (sign 58) ∷ a_number ∷ a_token (sign 93) ∷ a_token (sign 59) ∷ []) self.old s) }
        ensures nearer { OnOk result (left self.new < left self.old) }
    {
        self.token(Fixed::Sign(b'['))?;
        self.token(Fixed::Zero)?;
        self.token(Fixed::Sign(b':'))?;
        let last = self.number()?;
        self.token(Fixed::Sign(b']'))?;
        self.token(Fixed::Sign(b';'))?;
        Ok(last)
    }

    /// `name = rhs ;`
    pub fn assign(&mut self) -> Result<Item, Stop>
        ensures gives { IfOk result (λ i. Gives (a_name ∷ a_token (sign 61) ∷ a_side ∷ a_token (sign 59) ∷ []) (drop 1 (item_tokens i)) self.old self.new) }
        ensures halts { IfErr result (λ s. Halts (a_name ∷ a_token (sign 61) ∷ a_side ∷ a_token (sign 59) ∷ []) self.old s) }
        ensures nearer { OnOk result (left self.new < left self.old) }
        ensures front { IfOk result (λ i. HasFront (word (codes "assign") ∷ []) (item_tokens i)) }
        ensures named { IfOk result HasItemNames }
        ensures in_type { IfOk result HasNumberInType }
    {
        let target = self.name()?;
        self.token(Fixed::Sign(b'='))?;
        let rhs = self.side()?;
        self.token(Fixed::Sign(b';'))?;
        Ok(Item::Assign(Assign { target, rhs }))
    }
}

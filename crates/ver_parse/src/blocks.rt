//! Blocks (IEEE 1364-2005, 9.2.2, 9.4, 9.7.2).

ghost use Rattle.std.specs.Prelude.{◌≡◌};

use crate::fixed::Fixed;
use crate::parser::Parser;
use crate::stop::Stop;
use fir_base::{Name, Seq};
use ver_ast::{Always, Atom, Constant, Edge, Item, Resetting, Writing};

/// What a register takes where its reset is 1: the names of the reset, which is tested, and of the register, and the
/// value.
#[derive(Drop)]
pub struct ResetValue {
    pub tested: Name,
    pub target: Name,
    pub value: Constant,
}

/// A name, and an operand that is stored under it.
#[derive(Drop)]
pub struct Stored {
    pub target: Name,
    pub source: Atom,
}

impl<'t> Parser<'t> {
    ghost use Rattle.std.specs.Prelude.{◌<◌, ◌≤◌, [], ◌∷◌, ◌++◌, codes, drop, length, IfErr, IfOk, OnOk};
    ghost use Rattle.ver_words.specs.Names.{IsName};
    ghost use Rattle.ver_ast.specs.AtomForms.{constant_number};
    ghost use Rattle.ver_ast.specs.Grammar.{atom_tokens, item_tokens};
    ghost use Rattle.ver_ast.specs.Names.{atom_names};
    ghost use Rattle.ver_ast.specs.Spells.{AreVerilogNames, HasItemNames, HasNumberInType, IsInType};
    ghost use Rattle.ver_ast.specs.Tokens.{constant, double, sign, word};
    ghost use Rattle.ver_parse.specs.working.Blocks.{always_front, reset_tokens, stored_tokens};
    ghost use Rattle.ver_parse.specs.working.Reads.{left, Gives, Halts, HasFront};
    ghost use Rattle.ver_parse.specs.working.Steps.{reset_value, source};
    ghost use Rattle.ver_parse.specs.working.Symbols.{a_block, a_name, a_token, behind_edge};

    /// A block, behind its `always`.
    pub fn always(&mut self) -> Result<Item, Stop>
        ensures gives { IfOk result (λ i. Gives (a_token (sign 64) ∷ a_token (sign 40) ∷ a_token (word (codes "posedge")) ∷ a_name ∷ behind_edge ∷ []) (drop 1 (item_tokens i)) self.old self.new) }
        ensures halts { IfErr result (λ s. Halts (a_token (sign 64) ∷ a_token (sign 40) ∷ a_token (word (codes "posedge")) ∷ a_name ∷ behind_edge ∷ []) self.old s) }
        ensures nearer { OnOk result (left self.new < left self.old) }
        ensures front { IfOk result (λ i. HasFront (word (codes "always") ∷ []) (item_tokens i)) }
        ensures named { IfOk result HasItemNames }
        ensures in_type { IfOk result HasNumberInType }
    {
        self.token(Fixed::Sign(b'@'))?;
        self.token(Fixed::Sign(b'('))?;
        let first = self.edge()?;
        self.behind_edge(first)
    }

    /// What stands behind the first edge.
    fn behind_edge(&mut self, first: Name) -> Result<Item, Stop>
        requires { IsName first }
        ensures gives { IfOk result (λ i. Gives (behind_edge ∷ []) (drop 5 (item_tokens i)) self.old self.new) }
        ensures halts { IfErr result (λ s. Halts (behind_edge ∷ []) self.old s) }
        ensures nearer { OnOk result (left self.new < left self.old) }
        ensures front { IfOk result (λ i. HasFront (always_front first) (item_tokens i)) }
        ensures named { IfOk result HasItemNames }
        ensures in_type { IfOk result HasNumberInType }
    {
        if self.takes(Fixed::Sign(b')'))? {
            self.block(first)
        } else {
            self.clocked_reset(first)
        }
    }

    /// The block of one edge, behind its parenthesis.
    fn block(&mut self, first: Name) -> Result<Item, Stop>
        requires { IsName first }
        ensures gives { IfOk result (λ i. Gives (a_block ∷ []) (drop 6 (item_tokens i)) self.old self.new) }
        ensures halts { IfErr result (λ s. Halts (a_block ∷ []) self.old s) }
        ensures nearer { OnOk result (left self.new < left self.old) }
        ensures front { IfOk result (λ i. HasFront (always_front first ++ sign 41 ∷ []) (item_tokens i)) }
        ensures named { IfOk result HasItemNames }
        ensures in_type { IfOk result HasNumberInType }
    {
        if self.takes(Fixed::Word(b"if"))? {
            let reset = self.reset_value()?;
            Ok(Item::Resetting(resetting(first, reset, None)))
        } else if self.takes(Fixed::Word(b"begin"))? {
            let writes = self.writes()?;
            Ok(Item::Writing(Writing {
                clock: first,
                writes: Seq::from_vec(writes),
            }))
        } else {
            let stored = self.stored()?;
            Ok(Item::Always(Always {
                clock: first,
                target: stored.target,
                source: stored.source,
            }))
        }
    }

    /// The block of a clock and a reset, from its `or` on.
    fn clocked_reset(&mut self, clock: Name) -> Result<Item, Stop>
        requires { IsName clock }
        ensures gives { IfOk result (λ i. Gives (a_token (word (codes "or")) ∷ a_token (word (codes "posedge")) ∷ a_name ∷ a_token (sign 41) ∷ a_token (word (codes "if")) ∷ reset_value (a_token (word (codes "else")) ∷ a_name ∷ source [])) (drop 5 (item_tokens i)) self.old self.new) }
        ensures halts { IfErr result (λ s. Halts (a_token (word (codes "or")) ∷ a_token (word (codes "posedge")) ∷ a_name ∷ a_token (sign 41) ∷ a_token (word (codes "if")) ∷ reset_value (a_token (word (codes "else")) ∷ a_name ∷ source [])) self.old s) }
        ensures nearer { OnOk result (left self.new < left self.old) }
        ensures front { IfOk result (λ i. HasFront (always_front clock) (item_tokens i)) }
        ensures named { IfOk result HasItemNames }
        ensures in_type { IfOk result HasNumberInType }
    {
        let reset = self.second_edge()?;
        let value = self.reset_value()?;
        let stored = self.otherwise()?;
        let edge = Edge {
            clock,
            target: stored.target,
            source: stored.source,
        };
        Ok(Item::Resetting(resetting(reset, value, Some(edge))))
    }

    /// `or posedge name ) if`
    fn second_edge(&mut self) -> Result<Name, Stop>
        ensures gives { IfOk result (λ n. Gives (a_token (word (codes "or")) ∷ a_token (word (codes "posedge")) ∷ a_name ∷ a_token (sign 41) ∷ a_token (word (codes "if")) ∷ []) (word (codes "or") ∷ word (codes "posedge") ∷ word n ∷ sign 41 ∷ word (codes "if") ∷ []) self.old self.new) }
        ensures halts { IfErr result (λ s. Halts (a_token (word (codes "or")) ∷ a_token (word (codes "posedge")) ∷ a_name ∷ a_token (sign 41) ∷ a_token (word (codes "if")) ∷ []) self.old s) }
        ensures nearer { OnOk result (left self.new < left self.old) }
        ensures named { IfOk result IsName }
    {
        self.token(Fixed::Word(b"or"))?;
        let reset = self.edge()?;
        self.token(Fixed::Sign(b')'))?;
        self.token(Fixed::Word(b"if"))?;
        Ok(reset)
    }

    /// `else name <= atom ;`
    fn otherwise(&mut self) -> Result<Stored, Stop>
        ensures gives { IfOk result (λ r. Gives (a_token (word (codes "else")) ∷ a_name ∷ source []) (word (codes "else") ∷ stored_tokens r) self.old self.new) }
        ensures halts { IfErr result (λ s. Halts (a_token (word (codes "else")) ∷ a_name ∷ source []) self.old s) }
        ensures nearer { OnOk result (left self.new < left self.old) }
        ensures target { IfOk result (λ r. IsName r.target) }
        ensures source { IfOk result (λ r. AreVerilogNames (atom_names r.source)) }
    {
        self.token(Fixed::Word(b"else"))?;
        self.stored()
    }

    /// `( name ) name <= constant ;`
    fn reset_value(&mut self) -> Result<ResetValue, Stop>
        ensures gives { IfOk result (λ r. Gives (reset_value []) (reset_tokens r) self.old self.new) }
        ensures halts { IfErr result (λ s. Halts (reset_value []) self.old s) }
        ensures nearer { OnOk result (left self.new < left self.old) }
        ensures tested { IfOk result (λ r. IsName r.tested) }
        ensures target { IfOk result (λ r. IsName r.target) }
        ensures in_type { IfOk result (λ r. IsInType r.value.number) }
    {
        let tested = self.tested()?;
        let target = self.name()?;
        self.token(Fixed::Double(b'<', b'='))?;
        let value = self.constant()?;
        self.token(Fixed::Sign(b';'))?;
        Ok(ResetValue {
            tested,
            target,
            value,
        })
    }

    /// `( name )`
    fn tested(&mut self) -> Result<Name, Stop>
        ensures gives { IfOk result (λ n. Gives (a_token (sign 40) ∷ a_name ∷ a_token (sign 41) ∷ []) (sign 40 ∷ word n ∷ sign 41 ∷ []) self.old self.new) }
        ensures halts { IfErr result (λ s. Halts (a_token (sign 40) ∷ a_name ∷ a_token (sign 41) ∷ []) self.old s) }
        ensures nearer { OnOk result (left self.new < left self.old) }
        ensures named { IfOk result IsName }
    {
        self.token(Fixed::Sign(b'('))?;
        let tested = self.name()?;
        self.token(Fixed::Sign(b')'))?;
        Ok(tested)
    }

    /// `name <= atom ;`
    fn stored(&mut self) -> Result<Stored, Stop>
        ensures gives { IfOk result (λ r. Gives (a_name ∷ source []) (stored_tokens r) self.old self.new) }
        ensures halts { IfErr result (λ s. Halts (a_name ∷ source []) self.old s) }
        ensures nearer { OnOk result (left self.new < left self.old) }
        ensures target { IfOk result (λ r. IsName r.target) }
        ensures source { IfOk result (λ r. AreVerilogNames (atom_names r.source)) }
    {
        let target = self.name()?;
        let source = self.source()?;
        Ok(Stored { target, source })
    }
}

/// The block of a reset.
fn resetting(reset: Name, value: ResetValue, edge: Option<Edge>) -> Resetting
    ensures { result ≡ record { reset = reset; tested = value.tested; target = value.target; value = value.value; edge = edge } }
{
    Resetting {
        reset,
        tested: value.tested,
        target: value.target,
        value: value.value,
        edge,
    }
}

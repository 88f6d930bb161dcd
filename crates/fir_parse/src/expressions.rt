//! Expressions (FIRRTL spec, "Expressions").

use crate::lexeme::{Lexeme, Mark};
use crate::parser::{Parser, Tall};
use crate::stop::Stop;
use crate::terminals::open_one;
use crate::words::Applied;
use fir_ast::{Expr, Place, Reference};
use fir_base::Name;

impl<'t> Parser<'t> {
    ghost use Rattle.std.specs.Prelude.{◌≡◌, ◌<◌, ◌≤◌, ◌∷◌, IfErr, IfOk, OnOk, drop};
    ghost use Rattle.fir_ast.specs.working.Views.{expr_of};
    ghost use Rattle.fir_ast.specs.Expressions.{reference, no_parts};
    ghost use Rattle.fir_parse.specs.working.ExpressionRules.{literal_rest, reference_rest};
    ghost use Rattle.fir_parse.specs.Heights.{height};
    ghost use Rattle.fir_parse.specs.Lexemes.{mark};
    ghost use Rattle.fir_parse.specs.working.Reads.{left, rest, HasHeight, Reads};
    ghost use Rattle.fir_parse.specs.working.StatementRules.{ends_line};
    ghost use Rattle.fir_parse.specs.working.States.{wants};
    ghost use Rattle.fir_parse.specs.working.Symbols.{an_expression, behind_word};
    ghost use Rattle.fir_parse.specs.working.Trees.{tall_expression};

    /// An expression, where so many blocks and brackets are open.
    #[cycle(expressions)]
    pub fn expression(&mut self, depth: u32) -> Result<Tall<Expr>, Stop>
        requires { depth ≤ 256 }
        ensures reads { Reads (wants (an_expression depth)) tall_expression (rest self.old) (rest self.new) result }
        ensures high { IfOk result (HasHeight expr_of height) }
        ensures nearer { OnOk result (left self.new < left self.old) }
    {
        let next = self.peek();
        match next.lexeme {
            Lexeme::Word(word) => {
                self.pass();
                self.behind_word(depth, next.place, word)
            }
            _ => Err(next.refused()),
        }
    }

    /// An expression and the line's end.
    pub fn expression_line(&mut self, depth: u32) -> Result<Expr, Stop>
        requires { depth ≤ 256 }
        ensures reads { Reads (λ k. wants (an_expression depth) (λ e. ends_line e k)) expr_of (rest self.old) (rest self.new) result }
        ensures nearer { OnOk result (left self.new < left self.old) }
    {
        let expr = self.expression(depth)?;
        self.line_end()?;
        Ok(expr.tree)
    }

    /// The expression that begins with a word, behind it.
    #[cycle(expressions)]
    pub fn behind_word(&mut self, depth: u32, place: Place, word: &[u8]) -> Result<Tall<Expr>, Stop>
        requires { depth ≤ 256 }
        ensures reads { Reads (wants (behind_word depth place word.now)) tall_expression (rest self.old) (rest self.new) result }
        ensures high { IfOk result (HasHeight expr_of height) }
        ensures nearer { OnOk result (left self.new ≤ left self.old) }
    {
        let next = self.peek();
        match next.lexeme {
            Lexeme::Mark(Mark::OpenRound) => self.applied(depth, place, word, next.place),
            Lexeme::Mark(Mark::Less) => self.sized(depth, place, word),
            _ => self.referred(depth, place, word),
        }
    }

    /// A reference, behind its name, which is no operator or literal here.
    #[cycle(expressions)]
    fn referred(&mut self, depth: u32, place: Place, word: &[u8]) -> Result<Tall<Expr>, Stop>
        requires depth { depth ≤ 256 }
        ensures reads { Reads (λ k. reference_rest depth place word.now (λ s. k (reference s.place s.name s.parts))) tall_expression (rest self.old) (rest self.new) result }
        ensures high { IfOk result (HasHeight expr_of height) }
        ensures nearer { OnOk result (left self.new ≤ left self.old) }
    {
        let reference = self.reference(depth, place, word)?;
        Ok(Tall {
            tree: Expr::Ref(reference.tree),
            height: reference.height,
        })
    }

    /// An operator or a literal, whose parenthesis is at hand; else the word is a name.
    #[cycle(expressions)]
    fn applied(
        &mut self,
        depth: u32,
        place: Place,
        word: &[u8],
        bracket: Place,
    ) -> Result<Tall<Expr>, Stop>
        requires depth { depth ≤ 256 }
        requires at_hand { rest self.old ≡ record { lexeme = mark Mark.OpenRound; place = bracket } ∷ drop 1 (rest self.old) }
        ensures reads { Reads (wants (behind_word depth place word.now)) tall_expression (rest self.old) (rest self.new) result }
        ensures high { IfOk result (HasHeight expr_of height) }
        ensures nearer { OnOk result (left self.new ≤ left self.old) }
    {
        match Applied::of(word) {
            Applied::Operator(op) => {
                self.pass();
                open_one(depth, bracket)?;
                self.operation(depth + 1, place, op)
            }
            Applied::Mux => {
                self.pass();
                open_one(depth, bracket)?;
                self.mux(depth + 1, place)
            }
            Applied::Validif => {
                self.pass();
                open_one(depth, bracket)?;
                self.validif(depth + 1, place)
            }
            Applied::UInt => {
                self.pass();
                open_one(depth, bracket)?;
                self.unsized_literal(place, false)
            }
            Applied::SInt => {
                self.pass();
                open_one(depth, bracket)?;
                self.unsized_literal(place, true)
            }
            Applied::Missing => Err(self.unsupported(place, word)),
            Applied::Name => self.named(place, word),
        }
    }

    /// A literal with a width, whose `<` is at hand; else the word is a name.
    fn sized(&mut self, depth: u32, place: Place, word: &[u8]) -> Result<Tall<Expr>, Stop>
        requires depth { depth ≤ 256 }
        requires at_hand { (p : Place) × (rest self.old ≡ record { lexeme = mark Mark.Less; place = p } ∷ drop 1 (rest self.old)) }
        ensures reads { Reads (wants (behind_word depth place word.now)) tall_expression (rest self.old) (rest self.new) result }
        ensures high { IfOk result (HasHeight expr_of height) }
        ensures nearer { OnOk result (left self.new ≤ left self.old) }
    {
        match Applied::of(word) {
            Applied::UInt => {
                let literal = self.sized_literal(depth, place, false)?;
                Ok(Tall {
                    tree: Expr::Literal(literal),
                    height: 1,
                })
            }
            Applied::SInt => {
                let literal = self.sized_literal(depth, place, true)?;
                Ok(Tall {
                    tree: Expr::Literal(literal),
                    height: 1,
                })
            }
            _ => self.named(place, word),
        }
    }

    /// A literal without a width, behind its parenthesis.
    fn unsized_literal(&mut self, place: Place, signed: bool) -> Result<Tall<Expr>, Stop>
        ensures reads { Reads (λ k. literal_rest place signed None k) tall_expression (rest self.old) (rest self.new) result }
        ensures high { IfOk result (HasHeight expr_of height) }
        ensures nearer { OnOk result (left self.new < left self.old) }
    {
        let literal = self.literal_behind(place, signed, None)?;
        Ok(Tall {
            tree: Expr::Literal(literal),
            height: 1,
        })
    }

    /// The name alone.
    fn named(&self, place: Place, word: &[u8]) -> Result<Tall<Expr>, Stop>
        ensures named { IfOk result (λ t. expr_of t.tree ≡ reference place word.now no_parts) }
        ensures high { IfOk result (HasHeight expr_of height) }
        ensures why { IfErr result (λ s. s ≡ Stop.Memory) }
    {
        let tree = Reference {
            place,
            name: Name::new(self.alloc, word)?,
            parts: Vec::new(self.alloc),
        };
        Ok(Tall {
            tree: Expr::Ref(tree),
            height: 1,
        })
    }
}

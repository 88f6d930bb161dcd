//! Whens and the else that may stand behind them (FIRRTL spec, "Conditionals").

use crate::lexeme::{Lexeme, Mark};
use crate::parser::Parser;
use crate::stop::Stop;
use crate::terminals::open_one;
use fir_ast::{Expr, Place, Stmt, When};

/// A when without what its else may be.
#[derive(Drop)]
pub struct OpenWhen {
    pub place: Place,
    pub condition: Expr,
    pub block: Vec<Stmt>,
}

/// A statement, or a when that an else may follow.
#[derive(Drop)]
pub enum Begun {
    Statement(Stmt),
    When(OpenWhen),
}

/// What stands behind the word `else`.
#[derive(Drop)]
pub enum Otherwise {
    Block(Vec<Stmt>),
    When(OpenWhen),
    /// A statement that begins with a name of that word.
    Statement(Stmt),
}

impl<'t> Parser<'t> {
    ghost use Rattle.std.specs.Prelude.{◌+◌, ◌<◌, ◌≤◌, IfOk, OnOk, codes, map};
    ghost use Rattle.fir_ast.specs.working.Views.{block_of, expr_of, stmt_of};
    ghost use Rattle.fir_parse.specs.working.PartPlans.{block_behind_plan};
    ghost use Rattle.fir_parse.specs.working.Reads.{left, rest, Reads};
    ghost use Rattle.fir_parse.specs.working.StatementRules.{ref_rest, when_rest};
    ghost use Rattle.fir_parse.specs.working.StatementTrees.{open_when_of, otherwise_of, DeepensElse};
    ghost use Rattle.fir_parse.specs.working.States.{wants};
    ghost use Rattle.fir_parse.specs.working.Symbols.{an_indented_block, behind_else, no_else};

    /// The colon and the block of a when, behind its condition.
    #[cycle(statements)]
    pub fn when_behind(
        &mut self,
        depth: u32,
        place: Place,
        condition: Expr,
    ) -> Result<OpenWhen, Stop>
        requires { depth ≤ 256 }
        ensures reads { Reads (λ k. when_rest depth place (expr_of condition) k) open_when_of (rest self.old) (rest self.new) result }
        ensures deep { OnOk result (depth < 256) }
        ensures nearer { OnOk result (left self.new < left self.old) }
    {
        let block = self.block_behind(depth)?;
        Ok(OpenWhen {
            place,
            condition,
            block,
        })
    }

    /// The colon and the block of a when.
    #[cycle(statements)]
    #[tactic(auto, using(crate::proofs::Plans::limits))]
    fn block_behind(&mut self, depth: u32) -> Result<Vec<Stmt>, Stop>
        requires { depth ≤ 256 }
        ensures reads { Reads (λ k. block_behind_plan depth k) (λ b. block_of (map stmt_of b.items)) (rest self.old) (rest self.new) result }
        ensures deep { OnOk result (depth < 256) }
        ensures nearer { OnOk result (left self.new < left self.old) }
    {
        self.mark(Mark::Colon)?;
        let line_end = self.line_end()?;
        open_one(depth, line_end)?;
        self.indented_block(depth + 1)
    }

    /// The statements of a level, where one opens.
    #[cycle(statements)]
    fn indented_block(&mut self, depth: u32) -> Result<Vec<Stmt>, Stop>
        requires { depth ≤ 256 }
        ensures reads { Reads (wants (an_indented_block depth)) (λ b. block_of (map stmt_of b.items)) (rest self.old) (rest self.new) result }
        ensures nearer { OnOk result (left self.new ≤ left self.old) }
    {
        let next = self.peek();
        match next.lexeme {
            Lexeme::LevelOpens => {
                self.pass();
                self.statements(depth)
            }
            Lexeme::End => Err(next.refused()),
            _ => Ok(Vec::new(self.alloc)),
        }
    }

    /// What stands behind the word `else`, where so many whens before it have no else yet, each in that of
    /// the one before.
    #[cycle(statements)]
    pub fn behind_else(&mut self, depth: u32, whens: u32, place: Place) -> Result<Otherwise, Stop>
        requires { depth + whens ≤ 256 }
        ensures reads { Reads (wants (behind_else depth whens place)) otherwise_of (rest self.old) (rest self.new) result }
        ensures deep { IfOk result (DeepensElse (depth + whens)) }
        ensures nearer { OnOk result (left self.new < left self.old) }
    {
        let next = self.peek();
        match next.lexeme {
            Lexeme::Mark(Mark::Colon) => {
                self.pass();
                self.line_end()?;
                Ok(Otherwise::Block(self.indented_block(depth + whens)?))
            }
            Lexeme::Word(word) if word == b"when".as_slice() => {
                self.pass();
                let condition = self.expression(depth + whens)?;
                let when = self.when_behind(depth + whens, next.place, condition.tree)?;
                Ok(Otherwise::When(when))
            }
            _ => self.no_else(depth, place),
        }
    }

    /// A statement that begins with a name of the word `else`.
    fn no_else(&mut self, depth: u32, place: Place) -> Result<Otherwise, Stop>
        requires { depth ≤ 256 }
        ensures reads { Reads (λ k. ref_rest depth place (codes "else") (λ s. k (no_else s))) otherwise_of (rest self.old) (rest self.new) result }
        ensures deep { (any : _) → IfOk result (DeepensElse any) }
        ensures nearer { OnOk result (left self.new < left self.old) }
    {
        let sink = self.reference(depth, place, b"else")?;
        Ok(Otherwise::Statement(self.behind_sink(depth, sink.tree)?))
    }
}

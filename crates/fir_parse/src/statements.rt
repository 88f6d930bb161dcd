//! The statements of a level (FIRRTL spec, "Statements").

use crate::lexeme::Lexeme;
use crate::parser::Parser;
use crate::stop::Stop;
use crate::whens::{Begun, OpenWhen, Otherwise};
use fir_ast::{Place, Stmt, When};
use fir_base::MemoryOut;
use std::alloc::Global;

/// Statements that are read, and behind them whens without an else yet, each in the else of the one before.
#[derive(Drop)]
pub struct Sequence {
    alloc: Global,
    done: Vec<Stmt>,
    pending: Vec<OpenWhen>,
}

impl Sequence {
    ghost use Rattle.std.specs.Prelude.{◌≡◌, ◌+◌, ◌≤◌, ◌∷◌, ◌++◌, [], ℕ, OnOk, length, map};
    ghost use Rattle.fir_ast.specs.Statements.{Block};
    ghost use Rattle.fir_ast.specs.working.Views.{block_of, stmt_of};
    ghost use Rattle.fir_parse.specs.working.States.{State};
    ghost use Rattle.fir_parse.specs.working.StatementRules.{behind_otherwise, behind_statement, closed_before};
    ghost use Rattle.fir_parse.specs.working.StatementTrees.{begun_of, done_of, more_statements, opens_of, otherwise_of, statements_before, Deepens, DeepensElse, IsWithin};
    ghost use Rattle.fir_parse.specs.working.Symbols.{no_else};

    fn new(alloc: Global) -> Sequence
        ensures done { result.done.items ≡ [] }
        ensures none { result.pending.items ≡ [] }
    {
        Sequence {
            alloc,
            done: Vec::new(alloc),
            pending: Vec::new(alloc),
        }
    }

    /// Closes the open whens, of which the last has this else.
    fn close(&mut self, last: Vec<Stmt>) -> Result<(), MemoryOut>
        ensures closed { OnOk result ((behind : Block) → statements_before (done_of self.new) behind ≡ statements_before (done_of self.old) (closed_before (opens_of self.old) (block_of (map stmt_of last.items)) behind)) }
        ensures none { OnOk result (self.new.pending.items ≡ []) }
    {
        let mut last = last;
        while let Some(when) = self.pending.pop() {
            let statement = Stmt::When(
                when.place,
                When {
                    condition: when.condition,
                    then_block: when.block,
                    else_block: last,
                },
            );
            if self.pending.is_empty() {
                self.done.push(statement)?;
                return Ok(());
            }
            last = Vec::new(self.alloc);
            last.push(statement)?;
        }
        Ok(())
    }

    /// A statement more, or a when that is open, where none is.
    fn add(&mut self, begun: Begun) -> Result<(), MemoryOut>
        requires { self.old.pending.items ≡ [] }
        ensures goes_on { OnOk result ((d : ℕ) (k : Block → State) → behind_statement d (begun_of begun) (λ behind. k (statements_before (done_of self.old) behind)) ≡ more_statements d self.new k) }
        ensures within { OnOk result ((d : ℕ) → d ≤ 256 → Deepens d begun → IsWithin d self.new) }
    {
        match begun {
            Begun::Statement(statement) => {
                self.done.push(statement)?;
                Ok(())
            }
            Begun::When(when) => self.open(when),
        }
    }

    /// A when more that is open.
    fn open(&mut self, when: OpenWhen) -> Result<(), MemoryOut>
        ensures done { self.new.done.items ≡ self.old.done.items }
        ensures pending { OnOk result (self.new.pending.items ≡ self.old.pending.items ++ when ∷ []) }
    {
        self.pending.push(when)?;
        Ok(())
    }

    /// What stands behind the word `else`, in the else of the last open when or behind them all.
    fn add_else(&mut self, otherwise: Otherwise) -> Result<(), MemoryOut>
        ensures goes_on { OnOk result ((d : ℕ) (k : Block → State) → behind_otherwise d (opens_of self.old) (otherwise_of otherwise) (λ behind. k (statements_before (done_of self.old) behind)) ≡ more_statements d self.new k) }
        ensures within { OnOk result ((d : ℕ) → d ≤ 256 → DeepensElse (d + length self.old.pending.items) otherwise → IsWithin d self.new) }
    {
        match otherwise {
            Otherwise::Block(block) => self.close(block),
            Otherwise::When(when) => self.open(when),
            Otherwise::Statement(statement) => self.close_before(statement),
        }
    }

    /// Closes the open whens, of which the last has no else, and adds the statement behind them.
    fn close_before(&mut self, statement: Stmt) -> Result<(), MemoryOut>
        ensures goes_on { OnOk result ((d : ℕ) (k : Block → State) → behind_otherwise d (opens_of self.old) (no_else (stmt_of statement)) (λ behind. k (statements_before (done_of self.old) behind)) ≡ more_statements d self.new k) }
        ensures within { OnOk result ((d : ℕ) → d ≤ 256 → IsWithin d self.new) }
    {
        let mut behind = Vec::new(self.alloc);
        behind.push(statement)?;
        self.close(Vec::new(self.alloc))?;
        self.done.append(&mut behind)?;
        Ok(())
    }
}

impl<'t> Parser<'t> {
    ghost use Rattle.std.specs.Prelude.{◌≡◌, ◌≢◌, ◌<◌, ◌≤◌, ◌∷◌, [], codes, IfOk, OnOk, drop, map};
    ghost use Rattle.fir_ast.specs.working.Views.{block_of, stmt_of};
    ghost use Rattle.fir_parse.specs.Lexemes.{word};
    ghost use Rattle.fir_parse.specs.working.Reads.{left, rest, Leads, Reads};
    ghost use Rattle.fir_parse.specs.working.States.{wants};
    ghost use Rattle.fir_parse.specs.working.StatementRules.{behind_statement};
    ghost use Rattle.fir_parse.specs.working.StatementTrees.{begun_of, more_statements, Deepens, IsWithin};
    ghost use Rattle.fir_parse.specs.working.Symbols.{statements};

    /// The statements of a level up to its end.
    #[cycle(statements)]
    pub fn statements(&mut self, depth: u32) -> Result<Vec<Stmt>, Stop>
        requires { depth ≤ 256 }
        ensures reads { Reads (wants (statements depth [])) (λ b. block_of (map stmt_of b.items)) (rest self.old) (rest self.new) result }
        ensures nearer { OnOk result (left self.new < left self.old) }
    {
        let sequence = Sequence::new(self.alloc);
        self.more_statements(depth, sequence)
    }

    /// The statements behind a first one, up to the end of their level.
    pub fn statements_behind(&mut self, depth: u32, first: Begun) -> Result<Vec<Stmt>, Stop>
        requires depth { depth ≤ 256 }
        requires deep { Deepens depth first }
        ensures reads { Reads (λ k. behind_statement depth (begun_of first) k) (λ b. block_of (map stmt_of b.items)) (rest self.old) (rest self.new) result }
        ensures nearer { OnOk result (left self.new < left self.old) }
    {
        let mut sequence = Sequence::new(self.alloc);
        sequence.add(first)?;
        self.more_statements(depth, sequence)
    }

    /// The statements of a level up to its end, behind some.
    #[cycle(statements)]
    fn more_statements(&mut self, depth: u32, sequence: Sequence) -> Result<Vec<Stmt>, Stop>
        requires depth { depth ≤ 256 }
        requires within { IsWithin depth sequence }
        ensures reads { Reads (λ k. more_statements depth sequence k) (λ b. block_of (map stmt_of b.items)) (rest self.old) (rest self.new) result }
        ensures nearer { OnOk result (left self.new < left self.old) }
    {
        let mut sequence = sequence;
        loop {
            let next = self.peek();
            match next.lexeme {
                Lexeme::LevelCloses => {
                    self.pass();
                    sequence.close(Vec::new(self.alloc))?;
                    return Ok(sequence.done);
                }
                Lexeme::Word(word) => {
                    sequence = self.next_statement(depth, next.place, word, sequence)?;
                }
                _ => return Err(next.refused()),
            }
        }
    }

    /// What begins with the word at hand, behind those that are read.
    #[cycle(statements)]
    fn next_statement(
        &mut self,
        depth: u32,
        place: Place,
        name: &[u8],
        sequence: Sequence,
    ) -> Result<Sequence, Stop>
        requires depth { depth ≤ 256 }
        requires within { IsWithin depth sequence }
        requires at_hand { rest self.old ≡ record { lexeme = word name.now; place = place } ∷ drop 1 (rest self.old) }
        ensures reads { Leads (λ k. more_statements depth sequence k) (λ s k. more_statements depth s k) (rest self.old) (rest self.new) result }
        ensures within { IfOk result (IsWithin depth) }
        ensures nearer { OnOk result (left self.new < left self.old) }
    {
        if name == b"else".as_slice() && !sequence.pending.is_empty() {
            return self.next_else(depth, place, sequence);
        }
        self.pass();
        let mut sequence = sequence;
        sequence.close(Vec::new(self.alloc))?;
        let begun = self.begun(depth, place, name)?;
        sequence.add(begun)?;
        Ok(sequence)
    }

    /// What begins with the word `else`, behind a when.
    #[cycle(statements)]
    fn next_else(&mut self, depth: u32, place: Place, sequence: Sequence) -> Result<Sequence, Stop>
        requires depth { depth ≤ 256 }
        requires within { IsWithin depth sequence }
        requires some { sequence.pending.items ≢ [] }
        requires at_hand { rest self.old ≡ record { lexeme = word (codes "else"); place = place } ∷ drop 1 (rest self.old) }
        ensures reads { Leads (λ k. more_statements depth sequence k) (λ s k. more_statements depth s k) (rest self.old) (rest self.new) result }
        ensures within { IfOk result (IsWithin depth) }
        ensures nearer { OnOk result (left self.new < left self.old) }
    {
        self.pass();
        let mut sequence = sequence;
        let whens = sequence.pending.len() as u32;
        let otherwise = self.behind_else(depth, whens, place)?;
        sequence.add_else(otherwise)?;
        Ok(sequence)
    }
}

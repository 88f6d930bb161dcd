//! Registers (FIRRTL spec, "Registers").

use crate::lexeme::{Lexeme, Mark};
use crate::parser::Parser;
use crate::stop::Stop;
use crate::terminals::open_one;
use fir_ast::{Expr, Ident, Place, Register, RegisterReset, Stmt};

/// What clocks a register, and what resets it.
#[derive(Drop)]
pub struct Timing {
    pub clock: Expr,
    pub reset: Option<RegisterReset>,
}

impl<'t> Parser<'t> {
    ghost use Rattle.std.specs.Prelude.{◌<◌, ◌≤◌, OnOk, option_map};
    ghost use Rattle.fir_ast.specs.working.Views.{named_of, reset_of, stmt_of};
    ghost use Rattle.fir_parse.specs.working.PartPlans.{level_reset_plan, reset_behind_plan, reset_part_plan, round_reset_plan, timing_of, timing_plan};
    ghost use Rattle.fir_parse.specs.working.Reads.{left, rest, Reads};
    ghost use Rattle.fir_parse.specs.working.StatementRules.{register_rest, reset_rest};
    ghost use Rattle.fir_parse.specs.working.States.{wants};
    ghost use Rattle.fir_parse.specs.working.Symbols.{a_closing, a_line_end, a_mark, a_reset, behind_with};

    /// `: type , clock` and what resets it, behind a register's name.
    pub fn register(&mut self, depth: u32, place: Place, ident: Ident) -> Result<Stmt, Stop>
        requires { depth ≤ 256 }
        ensures reads { Reads (λ k. wants (a_mark Mark.Colon) (λ r. register_rest depth place (named_of ident) k)) stmt_of (rest self.old) (rest self.new) result }
        ensures nearer { OnOk result (left self.new < left self.old) }
    {
        self.mark(Mark::Colon)?;
        let ty = self.ty(depth)?;
        let timing = self.timing(depth)?;
        let register = Register {
            ident,
            type_place: ty.tree.place,
            ty: ty.tree.ty,
            clock: timing.clock,
            reset: timing.reset,
        };
        Ok(Stmt::Reg(place, Box::new(self.alloc, register)?))
    }

    /// `, clock` and what resets the register.
    fn timing(&mut self, depth: u32) -> Result<Timing, Stop>
        requires { depth ≤ 256 }
        ensures reads { Reads (λ k. timing_plan depth k) timing_of (rest self.old) (rest self.new) result }
        ensures nearer { OnOk result (left self.new < left self.old) }
    {
        let clock = self.next_operand(depth)?;
        let reset = self.reset(depth)?;
        Ok(Timing {
            clock: clock.tree,
            reset,
        })
    }

    /// The reset part, or none, and the line's end.
    fn reset(&mut self, depth: u32) -> Result<Option<RegisterReset>, Stop>
        requires { depth ≤ 256 }
        ensures reads { Reads (wants (a_reset depth)) (option_map reset_of) (rest self.old) (rest self.new) result }
        ensures nearer { OnOk result (left self.new < left self.old) }
    {
        let next = self.peek();
        match next.lexeme {
            Lexeme::LineEnd => {
                self.pass();
                Ok(None)
            }
            _ => self.reset_part(depth),
        }
    }

    /// The reset part.
    fn reset_part(&mut self, depth: u32) -> Result<Option<RegisterReset>, Stop>
        requires { depth ≤ 256 }
        ensures reads { Reads (λ k. reset_part_plan depth k) (option_map reset_of) (rest self.old) (rest self.new) result }
        ensures nearer { OnOk result (left self.new < left self.old) }
    {
        let with = self.word(b"with")?;
        self.mark(Mark::Colon)?;
        Ok(Some(self.behind_with(depth, with)?))
    }

    /// The reset part in parentheses, or on a line of its own, behind the word `with` at the place.
    fn behind_with(&mut self, depth: u32, with: Place) -> Result<RegisterReset, Stop>
        requires { depth ≤ 256 }
        ensures reads { Reads (wants (behind_with depth with)) reset_of (rest self.old) (rest self.new) result }
        ensures nearer { OnOk result (left self.new < left self.old) }
    {
        let next = self.peek();
        match next.lexeme {
            Lexeme::Mark(Mark::OpenRound) => {
                self.pass();
                self.reset_in_round(depth, with, next.place)
            }
            _ => self.reset_in_level(depth, with),
        }
    }

    /// The reset part in parentheses, of which the first stands at the place.
    fn reset_in_round(
        &mut self,
        depth: u32,
        with: Place,
        place: Place,
    ) -> Result<RegisterReset, Stop>
        requires { depth ≤ 256 }
        ensures reads { Reads (λ k. round_reset_plan depth with place k) reset_of (rest self.old) (rest self.new) result }
        ensures nearer { OnOk result (left self.new < left self.old) }
    {
        open_one(depth, place)?;
        let reset = self.reset_pair(depth + 1, with)?;
        self.close_line()?;
        Ok(reset)
    }

    /// The closing parenthesis and the line's end.
    fn close_line(&mut self) -> Result<Place, Stop>
        ensures reads { Reads (λ k. wants (a_mark Mark.CloseRound) (λ q. wants a_line_end k)) (λ p. p) (rest self.old) (rest self.new) result }
        ensures nearer { OnOk result (left self.new < left self.old) }
    {
        self.mark(Mark::CloseRound)?;
        self.line_end()
    }

    /// The reset part on a line of its own, in a level of its own.
    fn reset_in_level(&mut self, depth: u32, with: Place) -> Result<RegisterReset, Stop>
        requires { depth ≤ 256 }
        ensures reads { Reads (λ k. level_reset_plan depth with k) reset_of (rest self.old) (rest self.new) result }
        ensures nearer { OnOk result (left self.new < left self.old) }
    {
        self.line_end()?;
        self.opening()?;
        let reset = self.reset_pair(depth, with)?;
        self.close_level()?;
        Ok(reset)
    }

    /// The line's end and the end of the level.
    fn close_level(&mut self) -> Result<Place, Stop>
        ensures reads { Reads (λ k. wants a_line_end (λ q. wants a_closing k)) (λ p. p) (rest self.old) (rest self.new) result }
        ensures nearer { OnOk result (left self.new < left self.old) }
    {
        self.line_end()?;
        self.closing()
    }

    /// `reset => (condition, init)`
    fn reset_pair(&mut self, depth: u32, with: Place) -> Result<RegisterReset, Stop>
        requires { depth ≤ 256 }
        ensures reads { Reads (λ k. reset_rest depth with k) reset_of (rest self.old) (rest self.new) result }
        ensures nearer { OnOk result (left self.new < left self.old) }
    {
        self.word(b"reset")?;
        self.mark(Mark::Arrow)?;
        let open = self.mark(Mark::OpenRound)?;
        open_one(depth, open)?;
        self.reset_behind(depth + 1, with)
    }

    /// `condition, init)`
    fn reset_behind(&mut self, depth: u32, with: Place) -> Result<RegisterReset, Stop>
        requires { depth ≤ 256 }
        ensures reads { Reads (λ k. reset_behind_plan depth with k) reset_of (rest self.old) (rest self.new) result }
        ensures nearer { OnOk result (left self.new < left self.old) }
    {
        let condition = self.expression(depth)?;
        let init = self.next_operand(depth)?;
        self.mark(Mark::CloseRound)?;
        Ok(RegisterReset {
            place: with,
            condition: condition.tree,
            init: init.tree,
        })
    }
}

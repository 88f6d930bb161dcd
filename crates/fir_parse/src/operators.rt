//! Operators, `mux` and `validif`, behind their parenthesis (FIRRTL spec, "Primitive Operations",
//! "Multiplexers", "Conditionally Valids").

use crate::lexeme::Mark;
use crate::parser::{Parser, Tall};
use crate::stop::Stop;
use crate::terminals::end_form;
use fir_ast::{Expr, Place};
use fir_bits::{Form, PrimOp};

impl<'t> Parser<'t> {
    ghost use Rattle.std.specs.Prelude.{◌<◌, ◌≤◌, IfOk, OnOk};
    ghost use Rattle.fir_ast.specs.working.Views.{expr_of};
    ghost use Rattle.fir_parse.specs.working.ExpressionRules.{by_form, closing_plan, mux_rest, next_integer, next_operand, operator_rest, validif_rest};
    ghost use Rattle.fir_parse.specs.Heights.{height};
    ghost use Rattle.fir_parse.specs.working.Reads.{left, rest, HasHeight, Reads};
    ghost use Rattle.fir_parse.specs.working.States.{wants};
    ghost use Rattle.fir_parse.specs.working.Symbols.{an_expression};
    ghost use Rattle.fir_parse.specs.working.Trees.{boxed_expr_of, tall_boxed, tall_expression};

    /// The operands and integers of an operator, and its closing parenthesis.
    #[cycle(expressions)]
    pub fn operation(&mut self, depth: u32, place: Place, op: PrimOp) -> Result<Tall<Expr>, Stop>
        requires { depth ≤ 256 }
        ensures reads { Reads (λ k. operator_rest depth place op k) tall_expression (rest self.old) (rest self.new) result }
        ensures high { IfOk result (HasHeight expr_of height) }
        ensures nearer { OnOk result (left self.new < left self.old) }
    {
        match op.form() {
            Form::Pair | Form::Shift => self.binary(depth, place, op),
            Form::Single => self.unary(depth, place, op),
            Form::WithInteger => self.with_integer(depth, place, op),
            Form::WithRange => self.with_range(depth, place, op),
        }
    }

    #[cycle(expressions)]
    fn binary(&mut self, depth: u32, place: Place, op: PrimOp) -> Result<Tall<Expr>, Stop>
        requires { depth ≤ 256 }
        ensures reads { Reads (λ k. by_form Form.Pair depth place op k) tall_expression (rest self.old) (rest self.new) result }
        ensures high { IfOk result (HasHeight expr_of height) }
        ensures nearer { OnOk result (left self.new < left self.old) }
    {
        let mut operands = Vec::new(self.alloc);
        let first = self.expression(depth)?;
        operands.push(first.tree)?;
        let second = self.next_operand(depth)?;
        operands.push(second.tree)?;
        let height = first.height.max(second.height) + 1;
        self.close(height)?;
        let tree = Expr::Op(place, op, operands, Vec::new(self.alloc));
        Ok(Tall { tree, height })
    }

    #[cycle(expressions)]
    fn unary(&mut self, depth: u32, place: Place, op: PrimOp) -> Result<Tall<Expr>, Stop>
        requires { depth ≤ 256 }
        ensures reads { Reads (λ k. by_form Form.Single depth place op k) tall_expression (rest self.old) (rest self.new) result }
        ensures high { IfOk result (HasHeight expr_of height) }
        ensures nearer { OnOk result (left self.new < left self.old) }
    {
        let mut operands = Vec::new(self.alloc);
        let operand = self.expression(depth)?;
        operands.push(operand.tree)?;
        let height = operand.height + 1;
        self.close(height)?;
        let tree = Expr::Op(place, op, operands, Vec::new(self.alloc));
        Ok(Tall { tree, height })
    }

    #[cycle(expressions)]
    fn with_integer(&mut self, depth: u32, place: Place, op: PrimOp) -> Result<Tall<Expr>, Stop>
        requires { depth ≤ 256 }
        ensures reads { Reads (λ k. by_form Form.WithInteger depth place op k) tall_expression (rest self.old) (rest self.new) result }
        ensures high { IfOk result (HasHeight expr_of height) }
        ensures nearer { OnOk result (left self.new < left self.old) }
    {
        let mut operands = Vec::new(self.alloc);
        let operand = self.expression(depth)?;
        operands.push(operand.tree)?;
        let integer = self.next_integer()?;
        let mut integers = Vec::new(self.alloc);
        integers.push(integer)?;
        let height = operand.height + 1;
        self.close(height)?;
        let tree = Expr::Op(place, op, operands, integers);
        Ok(Tall { tree, height })
    }

    #[cycle(expressions)]
    fn with_range(&mut self, depth: u32, place: Place, op: PrimOp) -> Result<Tall<Expr>, Stop>
        requires { depth ≤ 256 }
        ensures reads { Reads (λ k. by_form Form.WithRange depth place op k) tall_expression (rest self.old) (rest self.new) result }
        ensures high { IfOk result (HasHeight expr_of height) }
        ensures nearer { OnOk result (left self.new < left self.old) }
    {
        let mut operands = Vec::new(self.alloc);
        let operand = self.expression(depth)?;
        operands.push(operand.tree)?;
        let high = self.next_integer()?;
        let low = self.next_integer()?;
        let mut integers = Vec::new(self.alloc);
        integers.push(high)?;
        integers.push(low)?;
        let height = operand.height + 1;
        self.close(height)?;
        let tree = Expr::Op(place, op, operands, integers);
        Ok(Tall { tree, height })
    }

    /// The operands of a `mux`, and its closing parenthesis.
    #[cycle(expressions)]
    pub fn mux(&mut self, depth: u32, place: Place) -> Result<Tall<Expr>, Stop>
        requires { depth ≤ 256 }
        ensures reads { Reads (λ k. mux_rest depth place k) tall_expression (rest self.old) (rest self.new) result }
        ensures high { IfOk result (HasHeight expr_of height) }
        ensures nearer { OnOk result (left self.new < left self.old) }
    {
        let condition = self.boxed_operand(depth)?;
        let one = self.next_boxed_operand(depth)?;
        let other = self.next_boxed_operand(depth)?;
        let height = condition.height.max(one.height.max(other.height)) + 1;
        self.close(height)?;
        let tree = Expr::Mux(place, condition.tree, one.tree, other.tree);
        Ok(Tall { tree, height })
    }

    /// The operands of a `validif`, and its closing parenthesis.
    #[cycle(expressions)]
    pub fn validif(&mut self, depth: u32, place: Place) -> Result<Tall<Expr>, Stop>
        requires { depth ≤ 256 }
        ensures reads { Reads (λ k. validif_rest depth place k) tall_expression (rest self.old) (rest self.new) result }
        ensures high { IfOk result (HasHeight expr_of height) }
        ensures nearer { OnOk result (left self.new < left self.old) }
    {
        let condition = self.boxed_operand(depth)?;
        let value = self.next_boxed_operand(depth)?;
        let height = condition.height.max(value.height) + 1;
        self.close(height)?;
        let tree = Expr::Validif(place, condition.tree, value.tree);
        Ok(Tall { tree, height })
    }

    /// An operand in a box.
    #[cycle(expressions)]
    fn boxed_operand(&mut self, depth: u32) -> Result<Tall<Box<Expr>>, Stop>
        requires { depth ≤ 256 }
        ensures reads { Reads (wants (an_expression depth)) tall_boxed (rest self.old) (rest self.new) result }
        ensures high { IfOk result (HasHeight boxed_expr_of height) }
        ensures nearer { OnOk result (left self.new < left self.old) }
    {
        let operand = self.expression(depth)?;
        let tree = Box::new(self.alloc, operand.tree)?;
        Ok(Tall {
            tree,
            height: operand.height,
        })
    }

    /// A comma and an operand in a box.
    #[cycle(expressions)]
    fn next_boxed_operand(&mut self, depth: u32) -> Result<Tall<Box<Expr>>, Stop>
        requires { depth ≤ 256 }
        ensures reads { Reads (λ k. next_operand depth k) tall_boxed (rest self.old) (rest self.new) result }
        ensures high { IfOk result (HasHeight boxed_expr_of height) }
        ensures nearer { OnOk result (left self.new < left self.old) }
    {
        self.mark(Mark::Comma)?;
        self.boxed_operand(depth)
    }

    /// A comma and an operand.
    #[cycle(expressions)]
    pub fn next_operand(&mut self, depth: u32) -> Result<Tall<Expr>, Stop>
        requires { depth ≤ 256 }
        ensures reads { Reads (λ k. next_operand depth k) tall_expression (rest self.old) (rest self.new) result }
        ensures high { IfOk result (HasHeight expr_of height) }
        ensures nearer { OnOk result (left self.new < left self.old) }
    {
        self.mark(Mark::Comma)?;
        self.expression(depth)
    }

    /// A comma and an integer.
    fn next_integer(&mut self) -> Result<u128, Stop>
        ensures reads { Reads (λ k. next_integer k) (λ n. n) (rest self.old) (rest self.new) result }
        ensures nearer { OnOk result (left self.new < left self.old) }
    {
        self.mark(Mark::Comma)?;
        let integer = self.natural()?;
        Ok(integer.number)
    }

    /// The closing parenthesis of a form of that height.
    #[tactic(auto, using(crate::proofs::Plans::limits))]
    fn close(&mut self, height: u32) -> Result<(), Stop>
        ensures reads { Reads (λ k. closing_plan height k) (λ u. u) (rest self.old) (rest self.new) result }
        ensures low { OnOk result (height ≤ 256) }
        ensures nearer { OnOk result (left self.new < left self.old) }
    {
        let close = self.mark(Mark::CloseRound)?;
        end_form(height, close)?;
        Ok(())
    }
}

//! Right sides of assigns (IEEE 1364-2005, 5.4).

ghost use Rattle.std.specs.Prelude.{◌≡◌};
ghost use Rattle.ver_ast.specs.declared.tree.Verilog.{Verilog};
ghost use Rattle.ver_ast.specs.declared.tree.Rhs.TheVariants as rhs_form;
ghost use Rattle.ver_ast.specs.AtomForms.{constant_number};
ghost use Rattle.ver_ast.specs.Nets.{arrays, nets};
ghost use Rattle.ver_ast.specs.SoundSides as sound;
ghost use Rattle.ver_ast.specs.SoundSides.{IsSoundSide, KeepsRule};
ghost use Rattle.ver_ast.specs.Valid.{IsClockSide};
ghost use Rattle.ver_valid.specs.working.Judgement.{Judges};
ghost use Rattle.ver_valid.specs.working.Scopes.{Tells};
ghost use Rattle.ver_valid.specs.working.Rules.{ArePaired, rule_of};

use crate::misfit::Misfit;
use crate::operand::{has_width, operand, same_width};
use crate::scope::Scope;
use fir_base::{Name, Refused};
use ver_ast::{Atom, AtomForm, BinaryOp, Constant, Rhs, SignedOp, UnaryOp};

/// Which widths two operands may have beside a target.
#[derive(Clone, Copy)]
enum Rule {
    /// Both the target's.
    Arithmetic,
    /// The first the target's.
    Shift,
    /// The same, beside a target of one bit.
    Comparison,
}

/// The right side is sound beside a target of so many bits.
pub fn side(scope: &Scope, width: u32, rhs: &Rhs) -> Result<(), Refused<Misfit>>
    ensures { (v : Verilog) → Tells scope.now v → Judges result (IsSoundSide (nets v) (arrays v) width rhs.now) }
{
    match rhs {
        Rhs::Atom(a) => has_width(scope, width, a),
        Rhs::Unary(op, a) => unary_side(scope, width, *op, a),
        Rhs::Binary(a, op, b) => pair_side(scope, width, binary_rule(*op), a, b),
        Rhs::Signed(a, op, b) => pair_side(scope, width, signed_rule(*op), a, b),
        Rhs::SignedShift(a, b) => pair_side(scope, width, Rule::Shift, a, b),
        Rhs::Conditional(c, a, b) => conditional_side(scope, width, c, a, b),
        Rhs::Word(m, a) => word_side(scope, width, m, a),
    }
}

fn unary_side(scope: &Scope, width: u32, op: UnaryOp, atom: &Atom) -> Result<(), Refused<Misfit>>
    ensures { (v : Verilog) → Tells scope.now v → Judges result (IsSoundSide (nets v) (arrays v) width (rhs_form.Unary op atom.now)) }
{
    let own = operand(scope, atom)?;
    match op {
        UnaryOp::Not => same_width(own, width),
        UnaryOp::And | UnaryOp::Or | UnaryOp::Xor => same_width(width, 1),
    }
}

fn pair_side(
    scope: &Scope,
    width: u32,
    rule: Rule,
    first: &Atom,
    second: &Atom,
) -> Result<(), Refused<Misfit>>
    ensures { (v : Verilog) → Tells scope.now v → Judges result (ArePaired (nets v) (rule_of rule) width first.now second.now) }
{
    let first_width = operand(scope, first)?;
    let second_width = operand(scope, second)?;
    keeps_rule(rule, width, first_width, second_width)
}

fn keeps_rule(rule: Rule, width: u32, first: u32, second: u32) -> Result<(), Refused<Misfit>>
    ensures { Judges result (KeepsRule (rule_of rule) width first second) }
{
    match rule {
        Rule::Arithmetic => {
            same_width(first, width)?;
            same_width(second, width)
        }
        Rule::Shift => same_width(first, width),
        Rule::Comparison => {
            same_width(width, 1)?;
            same_width(first, second)
        }
    }
}

fn conditional_side(
    scope: &Scope,
    width: u32,
    condition: &Atom,
    first: &Atom,
    second: &Atom,
) -> Result<(), Refused<Misfit>>
    ensures { (v : Verilog) → Tells scope.now v → Judges result (IsSoundSide (nets v) (arrays v) width (rhs_form.Conditional condition.now first.now second.now)) }
{
    has_width(scope, 1, condition)?;
    has_width(scope, width, first)?;
    has_width(scope, width, second)
}

fn word_side(scope: &Scope, width: u32, array: &Name, index: &Atom) -> Result<(), Refused<Misfit>>
    ensures { (v : Verilog) → Tells scope.now v → Judges result (IsSoundSide (nets v) (arrays v) width (rhs_form.Word array.now index.now)) }
{
    same_width(scope.array(array)?, width)?;
    operand(scope, index)?;
    Ok(())
}

fn binary_rule(op: BinaryOp) -> Rule
    ensures { rule_of result ≡ sound.binary_rule op }
{
    match op {
        BinaryOp::Add
        | BinaryOp::Sub
        | BinaryOp::Mul
        | BinaryOp::Div
        | BinaryOp::Rem
        | BinaryOp::And
        | BinaryOp::Or
        | BinaryOp::Xor => Rule::Arithmetic,
        BinaryOp::Shl | BinaryOp::Shr => Rule::Shift,
        BinaryOp::Eq
        | BinaryOp::Neq
        | BinaryOp::Lt
        | BinaryOp::Leq
        | BinaryOp::Gt
        | BinaryOp::Geq => Rule::Comparison,
    }
}

fn signed_rule(op: SignedOp) -> Rule
    ensures { rule_of result ≡ sound.signed_rule op }
{
    match op {
        SignedOp::Div | SignedOp::Rem => Rule::Arithmetic,
        SignedOp::Lt | SignedOp::Leq | SignedOp::Gt | SignedOp::Geq => Rule::Comparison,
    }
}

/// The right side of a clock output: a clock input, or no clock, which is 0.
pub fn clock_side(scope: &Scope, rhs: &Rhs) -> Result<(), Refused<Misfit>>
    ensures { (v : Verilog) → Tells scope.now v → Judges result (IsClockSide v rhs.now) }
{
    match rhs {
        Rhs::Atom(atom) => clock_atom(scope, atom),
        _ => Err(Refused::Fault(Misfit::Unfit)),
    }
}

fn clock_atom(scope: &Scope, atom: &Atom) -> Result<(), Refused<Misfit>>
    ensures { (v : Verilog) → Tells scope.now v → Judges result (IsClockSide v (rhs_form.Atom atom.now)) }
{
    match &atom.form {
        AtomForm::Net(name) => scope.clock(name),
        AtomForm::Constant(constant) => no_clock(*constant),
        _ => Err(Refused::Fault(Misfit::Unfit)),
    }
}

fn no_clock(constant: Constant) -> Result<(), Refused<Misfit>>
    ensures { Judges result ((constant.width ≡ 1) × (constant_number constant ≡ 0)) }
{
    match constant.number {
        Some(0) => same_width(constant.width, 1),
        _ => Err(Refused::Fault(Misfit::Unfit)),
    }
}

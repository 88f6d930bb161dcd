//! Right sides (IEEE 1364-2005, 5.1, 5.4, 5.5).

ghost use Rattle.std.specs.Prelude.{◌≡◌, ◌≤◌, ◌++◌, ℕ, Option, Some, IfOk};
ghost use Rattle.ver_ast.specs.SoundSides as sound;
ghost use Rattle.ver_check.specs.Scopes.{Scope as Declarations, bits_of, kind_of, word_bits};
ghost use Rattle.ver_check.specs.OperandFaults.{atom_faults, name_faults, width_faults};
ghost use Rattle.ver_check.specs.SideFaults as spec;
ghost use Rattle.ver_check.specs.SideFaults.{clock_faults, clock_side_faults, misplaced_atom as misplaced_atom_faults, misplaced_faults, shown_clock_faults, side_faults, signed_faults, truth_faults};
ghost use Rattle.ver_check.specs.working.Findings.{Finds};
ghost use Rattle.ver_check.specs.working.Known.{Knows};
ghost use Rattle.ver_check.specs.working.Judged.{IsNeeded, capped};
ghost use Rattle.ver_check.specs.working.Sides.{HasExtent, HasSignedExtent, rule_of};

use crate::findings::{refuse, undeclared};
use crate::operand::{Judged, WIDE, judge, unequal};
use crate::scope::Scope;
use fir_base::{Name, Refused};
use std::alloc::Global;
use ver_ast::{Atom, AtomForm, BinaryOp, Rhs, SignedOp, UnaryOp, VPlace};
use ver_fault::VerFault;
use ver_places::{behind, place_at};

/// Of an operand without a fault: how many bits it has, and the places behind its own.
#[derive(Clone, Copy)]
pub struct Extent<'a> {
    pub bits: Option<u32>,
    pub next: &'a [VPlace],
}

/// Which widths two operands may have beside a target.
#[derive(Clone, Copy)]
enum Rule {
    /// Both the target's.
    Arithmetic,
    /// The first the target's.
    Shift,
    /// The same.
    Comparison,
}

/// The operand that has the first of these places, where so many bits are needed, or any.
pub fn operand<'a>(
    alloc: Global,
    scope: &Scope,
    places: &'a [VPlace],
    needed: Option<u32>,
    atom: &Atom,
) -> Result<Extent<'a>, Refused<VerFault>>
    ensures found { (ds : Declarations) → Knows scope.now ds → IsNeeded needed → Finds result (atom_faults ds needed atom.now places.now) }
    ensures extent { IfOk result (λ e. (ds : Declarations) → Knows scope.now ds → IsNeeded needed → HasExtent ds atom.now places.now e) }
    ensures narrow { IfOk result (λ e. IsNeeded e.bits) }
{
    let Judged { bits, next, fault } = judge(alloc, scope, places, needed, atom)?;
    refuse(fault)?;
    Ok(Extent {
        bits: narrow(bits),
        next,
    })
}

/// The operand in a `$signed`, which has the first of these places: of another width than is needed it shows it there.
fn signed_operand<'a>(
    alloc: Global,
    scope: &Scope,
    places: &'a [VPlace],
    needed: Option<u32>,
    atom: &Atom,
) -> Result<Extent<'a>, Refused<VerFault>>
    ensures found { (ds : Declarations) → Knows scope.now ds → IsNeeded needed → Finds result (signed_faults ds needed atom.now places.now) }
    ensures extent { IfOk result (λ e. (ds : Declarations) → Knows scope.now ds → IsNeeded needed → HasSignedExtent ds atom.now places.now e) }
    ensures narrow { IfOk result (λ e. IsNeeded e.bits) }
{
    let within = behind(places, 1);
    let Judged { bits, next, fault } = judge(alloc, scope, within, None, atom)?;
    refuse(unequal(needed, bits, place_at(places, 0)))?;
    refuse(fault)?;
    Ok(Extent {
        bits: narrow(bits),
        next,
    })
}

/// A width of at most 128 bits as it is.
fn narrow(bits: Option<u32>) -> Option<u32>
    ensures narrow { IsNeeded result }
    ensures same { (all : Option ℕ) → bits ≡ capped all → IsNeeded all → result ≡ all }
{
    match bits {
        Some(width) if width < WIDE => Some(width),
        _ => None,
    }
}

/// The right side, which has the first of these places, beside a target of so many bits.
pub fn side(
    alloc: Global,
    scope: &Scope,
    places: &[VPlace],
    width: u32,
    rhs: &Rhs,
) -> Result<(), Refused<VerFault>>
    ensures { (ds : Declarations) → Knows scope.now ds → width ≤ 128 → Finds result (side_faults ds width rhs.now places.now) }
{
    match rhs {
        Rhs::Atom(a) => {
            operand(alloc, scope, places, Some(width), a)?;
        }
        Rhs::Unary(op, a) => {
            operand(alloc, scope, places, unary_needs(*op, width), a)?;
        }
        Rhs::Binary(a, op, b) => {
            let rule = binary_rule(*op);
            let first = operand(alloc, scope, places, first_needs(rule, width), a)?;
            let needed = second_needs(rule, width, first.bits);
            operand(alloc, scope, first.next, needed, b)?;
        }
        Rhs::Signed(a, op, b) => {
            let rule = signed_rule(*op);
            let first = signed_operand(alloc, scope, places, first_needs(rule, width), a)?;
            let needed = second_needs(rule, width, first.bits);
            signed_operand(alloc, scope, first.next, needed, b)?;
        }
        Rhs::SignedShift(a, b) => {
            let first = signed_operand(alloc, scope, places, Some(width), a)?;
            operand(alloc, scope, first.next, None, b)?;
        }
        Rhs::Conditional(c, a, b) => {
            let condition = operand(alloc, scope, places, Some(1), c)?;
            let first = operand(alloc, scope, condition.next, Some(width), a)?;
            operand(alloc, scope, first.next, Some(width), b)?;
        }
        Rhs::Word(m, a) => {
            word(alloc, scope, place_at(places, 0), width, m)?;
            operand(alloc, scope, behind(places, 2), None, a)?;
        }
    }
    Ok(())
}

/// An array of that name has words of so many bits.
fn word(
    alloc: Global,
    scope: &Scope,
    place: VPlace,
    width: u32,
    array: &Name,
) -> Result<(), Refused<VerFault>>
    ensures { (ds : Declarations) → Knows scope.now ds
        → width ≤ 128 → Finds result (name_faults word_bits place array.now (kind_of ds array.now) ++ width_faults (Some width) (bits_of word_bits ds array.now) place) }
{
    let found = array_bits(alloc, scope, place, array)?;
    refuse(unequal(Some(width), Some(found), place))
}

/// The width of the words of an array of that name.
pub fn array_bits(
    alloc: Global,
    scope: &Scope,
    place: VPlace,
    array: &Name,
) -> Result<u32, Refused<VerFault>>
    ensures found { (ds : Declarations) → Knows scope.now ds → Finds result (name_faults word_bits place array.now (kind_of ds array.now)) }
    ensures bits { IfOk result (λ w. (ds : Declarations) → Knows scope.now ds → bits_of word_bits ds array.now ≡ Some w) }
    ensures narrow { IfOk result (λ w. (ds : Declarations) → Knows scope.now ds → w ≤ 128) }
{
    match scope.find(array) {
        None => Err(Refused::Fault(undeclared(alloc, place, array)?)),
        Some(entry) => match entry.kind.word_bits() {
            Some(width) => Ok(width),
            None => Err(Refused::Fault(VerFault::Kind { place })),
        },
    }
}

/// A truth has a target of one bit.
pub fn truth(width: u32, rhs: &Rhs, place: VPlace) -> Result<(), Refused<VerFault>>
    ensures { Finds result (truth_faults width rhs.now place) }
{
    if is_truth(rhs) && width != 1 {
        Err(Refused::Fault(VerFault::Width {
            place,
            needed: 1,
            found: width,
        }))
    } else {
        Ok(())
    }
}

fn is_truth(rhs: &Rhs) -> bool
    ensures { result ≡ spec.is_truth rhs.now }
{
    match rhs {
        Rhs::Unary(op, _) => match op {
            UnaryOp::Not => false,
            UnaryOp::And | UnaryOp::Or | UnaryOp::Xor => true,
        },
        Rhs::Binary(_, op, _) => is_comparison(binary_rule(*op)),
        Rhs::Signed(_, op, _) => is_comparison(signed_rule(*op)),
        Rhs::Atom(_) | Rhs::SignedShift(_, _) | Rhs::Conditional(_, _, _) | Rhs::Word(_, _) => {
            false
        }
    }
}

fn is_comparison(rule: Rule) -> bool
    ensures { result ≡ spec.is_comparison (rule_of rule) }
{
    match rule {
        Rule::Comparison => true,
        Rule::Arithmetic | Rule::Shift => false,
    }
}

fn unary_needs(op: UnaryOp, width: u32) -> Option<u32>
    ensures { result ≡ spec.unary_needs op width }
{
    match op {
        UnaryOp::Not => Some(width),
        UnaryOp::And | UnaryOp::Or | UnaryOp::Xor => None,
    }
}

fn first_needs(rule: Rule, width: u32) -> Option<u32>
    ensures { result ≡ spec.first_needs (rule_of rule) width }
{
    match rule {
        Rule::Arithmetic | Rule::Shift => Some(width),
        Rule::Comparison => None,
    }
}

fn second_needs(rule: Rule, width: u32, first: Option<u32>) -> Option<u32>
    ensures { result ≡ spec.second_needs (rule_of rule) width first }
{
    match rule {
        Rule::Arithmetic => Some(width),
        Rule::Shift => None,
        Rule::Comparison => first,
    }
}

fn binary_rule(op: BinaryOp) -> Rule
    ensures { rule_of result ≡ sound.binary_rule op }
{
    match op {
        BinaryOp::Add
        | BinaryOp::Sub
        | BinaryOp::Mul
        | BinaryOp::Div
        | BinaryOp::Rem
        | BinaryOp::And
        | BinaryOp::Or
        | BinaryOp::Xor => Rule::Arithmetic,
        BinaryOp::Shl | BinaryOp::Shr => Rule::Shift,
        BinaryOp::Eq
        | BinaryOp::Neq
        | BinaryOp::Lt
        | BinaryOp::Leq
        | BinaryOp::Gt
        | BinaryOp::Geq => Rule::Comparison,
    }
}

fn signed_rule(op: SignedOp) -> Rule
    ensures { rule_of result ≡ sound.signed_rule op }
{
    match op {
        SignedOp::Div | SignedOp::Rem => Rule::Arithmetic,
        SignedOp::Lt | SignedOp::Leq | SignedOp::Gt | SignedOp::Geq => Rule::Comparison,
    }
}

/// A name that is not declared, or else is not of a kind that may stand there.
pub fn misplaced(
    alloc: Global,
    scope: &Scope,
    place: VPlace,
    name: &Name,
) -> Result<(), Refused<VerFault>>
    ensures { (ds : Declarations) → Knows scope.now ds → Finds result (misplaced_faults place name.now (kind_of ds name.now)) }
{
    match scope.find(name) {
        None => Err(Refused::Fault(undeclared(alloc, place, name)?)),
        Some(_) => Err(Refused::Fault(VerFault::Kind { place })),
    }
}

/// The name is a clock input's.
pub fn clock(
    alloc: Global,
    scope: &Scope,
    place: VPlace,
    name: &Name,
) -> Result<(), Refused<VerFault>>
    ensures { (ds : Declarations) → Knows scope.now ds → Finds result (clock_faults place name.now (kind_of ds name.now)) }
{
    match scope.find(name) {
        None => Err(Refused::Fault(undeclared(alloc, place, name)?)),
        Some(entry) => {
            if entry.kind.is_clock_input() {
                Ok(())
            } else {
                Err(Refused::Fault(VerFault::Kind { place }))
            }
        }
    }
}

/// The right side of a clock output: a clock input, or no clock, which is a constant of one bit that is 0.
pub fn clock_side(
    alloc: Global,
    scope: &Scope,
    place: VPlace,
    rhs: &Rhs,
) -> Result<(), Refused<VerFault>>
    ensures { (ds : Declarations) → Knows scope.now ds → Finds result (clock_side_faults ds rhs.now place) }
{
    match rhs {
        Rhs::Atom(a) => shown_clock(alloc, scope, place, a),
        Rhs::Unary(_, a) | Rhs::Binary(a, _, _) | Rhs::Conditional(a, _, _) => {
            misplaced_atom(alloc, scope, place, a)
        }
        Rhs::Signed(_, _, _) | Rhs::SignedShift(_, _) => {
            Err(Refused::Fault(VerFault::Kind { place }))
        }
        Rhs::Word(m, _) => misplaced(alloc, scope, place, m),
    }
}

fn shown_clock(
    alloc: Global,
    scope: &Scope,
    place: VPlace,
    atom: &Atom,
) -> Result<(), Refused<VerFault>>
    ensures { (ds : Declarations) → Knows scope.now ds → Finds result (shown_clock_faults ds atom.now place) }
{
    match &atom.form {
        AtomForm::Net(name) => clock(alloc, scope, place, name),
        AtomForm::Constant(constant) => match constant.number {
            Some(0) if constant.width == 1 => Ok(()),
            _ => Err(Refused::Fault(VerFault::Kind { place })),
        },
        _ => misplaced_atom(alloc, scope, place, atom),
    }
}

/// An operand where no operand of bits may stand.
fn misplaced_atom(
    alloc: Global,
    scope: &Scope,
    place: VPlace,
    atom: &Atom,
) -> Result<(), Refused<VerFault>>
    ensures { (ds : Declarations) → Knows scope.now ds → Finds result (misplaced_atom_faults ds atom.now place) }
{
    match &atom.form {
        AtomForm::Net(name) | AtomForm::BitSelect(name, _) | AtomForm::PartSelect(name, _, _) => {
            misplaced(alloc, scope, place, name)
        }
        AtomForm::Constant(_) | AtomForm::Concat(_, _) | AtomForm::Repeat(_, _) => {
            Err(Refused::Fault(VerFault::Kind { place }))
        }
    }
}

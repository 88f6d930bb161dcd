//! Operands (IEEE 1364-2005, 5.1.14, 5.2).

ghost use Rattle.std.specs.Prelude.{◌≡◌, ◌+◌, ◌≤◌, ◌↔◌, IsTrue};
ghost use Rattle.ver_ast.specs.declared.tree.Verilog.{Verilog};
ghost use Rattle.ver_ast.specs.Atoms.{atoms_of};
ghost use Rattle.ver_ast.specs.Nets.{nets};
ghost use Rattle.ver_ast.specs.SoundSides.{HasWidth};
ghost use Rattle.ver_valid.specs.working.Judgement.{Judges, Gives};
ghost use Rattle.ver_valid.specs.working.Declarations.{IsNarrow};
ghost use Rattle.ver_valid.specs.working.Scopes.{Tells};
ghost use Rattle.ver_valid.specs.working.Operands.{AreJoined, IsCopied, IsPart, IsSoundConstant, IsWithin};

use crate::misfit::Misfit;
use crate::scope::Scope;
use fir_base::{Name, Refused};
use fir_bits::mask;
use ver_ast::{Atom, AtomForm, Constant};

/// How many braces can be open in an operand.
const BRACES: u32 = 256;

/// The width of an operand, which is sound.
pub fn operand(scope: &Scope, atom: &Atom) -> Result<u32, Refused<Misfit>>
    ensures { (v : Verilog) → Tells scope.now v → Gives result (λ w. HasWidth (nets v) w atom.now) }
{
    atom_width(scope, atom, BRACES)
}

/// The operand has so many bits.
pub fn has_width(scope: &Scope, width: u32, atom: &Atom) -> Result<(), Refused<Misfit>>
    ensures { (v : Verilog) → Tells scope.now v → Judges result (HasWidth (nets v) width atom.now) }
{
    same_width(operand(scope, atom)?, width)
}

/// Both are one width.
pub fn same_width(first: u32, second: u32) -> Result<(), Refused<Misfit>>
    ensures { Judges result (first ≡ second) }
{
    if first == second {
        Ok(())
    } else {
        Err(Refused::Fault(Misfit::Unfit))
    }
}

/// The width of an operand in which so many braces can be open.
#[cycle(atoms)]
fn atom_width(scope: &Scope, atom: &Atom, braces: u32) -> Result<u32, Refused<Misfit>>
    ensures { (v : Verilog) → Tells scope.now v → Gives result (IsWithin (nets v) braces atom.now) }
{
    match &atom.form {
        AtomForm::Net(name) => scope.net(name),
        AtomForm::Constant(constant) => constant_width(*constant),
        AtomForm::BitSelect(name, index) => part_width(scope, name, *index, *index),
        AtomForm::PartSelect(name, high, low) => part_width(scope, name, *high, *low),
        AtomForm::Concat(first, rest) => {
            let braces = braces_within(braces, 1)?;
            let first = atom_width(scope, first, braces)?;
            let others = joined_width(scope, rest.as_slice(), braces)?;
            sum_width(first, others)
        }
        AtomForm::Repeat(count, copied) => {
            let braces = braces_within(braces, 2)?;
            let width = atom_width(scope, copied, braces)?;
            copied_width(*count, width)
        }
    }
}

/// The width of operands beside each other.
#[cycle(atoms)]
fn joined_width(scope: &Scope, atoms: &[Atom], braces: u32) -> Result<u32, Refused<Misfit>>
    ensures { (v : Verilog) → Tells scope.now v → Gives result (AreJoined (nets v) braces (atoms_of atoms.now)) }
{
    let mut width = 0;
    for atom in atoms {
        let next = atom_width(scope, atom, braces)?;
        width = sum_width(width, next)?;
    }
    Ok(width)
}

/// How many braces can be open within so many more.
fn braces_within(braces: u32, opened: u32) -> Result<u32, Refused<Misfit>>
    ensures { Gives result (λ rest. rest + opened ≡ braces) }
{
    if opened <= braces {
        Ok(braces - opened)
    } else {
        Err(Refused::Fault(Misfit::Unfit))
    }
}

/// The width of two operands beside each other, at most 128.
fn sum_width(first: u32, second: u32) -> Result<u32, Refused<Misfit>>
    ensures { Gives result (λ w. (first + second ≡ w) × (w ≤ 128)) }
{
    if first <= 128 && second <= 128 - first {
        Ok(first + second)
    } else {
        Err(Refused::Fault(Misfit::Unfit))
    }
}

/// The width of so many copies, at most 128.
fn copied_width(count: u32, width: u32) -> Result<u32, Refused<Misfit>>
    ensures { Gives result (IsCopied count width) }
{
    let product = u64::from(count) * u64::from(width);
    if 1 <= count && product <= 128 {
        Ok(product as u32)
    } else {
        Err(Refused::Fault(Misfit::Unfit))
    }
}

/// The width of a constant, whose number fits it.
fn constant_width(constant: Constant) -> Result<u32, Refused<Misfit>>
    ensures { Gives result (λ w. IsSoundConstant constant × (constant.width ≡ w)) }
{
    if is_constant_sound(constant) {
        Ok(constant.width)
    } else {
        Err(Refused::Fault(Misfit::Unfit))
    }
}

/// Whether a width is one that nets can have: from 1 to 128 bits.
pub fn is_narrow(width: u32) -> bool
    ensures { IsTrue result ↔ IsNarrow width }
{
    1 <= width && width <= 128
}

/// Whether a constant has a width that nets can have, and its number fits it.
pub fn is_constant_sound(constant: Constant) -> bool
    ensures { IsTrue result ↔ IsSoundConstant constant }
{
    if !is_narrow(constant.width) {
        return false;
    }
    match constant.number {
        Some(number) => number <= mask(constant.width),
        None => false,
    }
}

/// The width of the bits from `high` down to `low` of a net that has a range.
fn part_width(scope: &Scope, name: &Name, high: u32, low: u32) -> Result<u32, Refused<Misfit>>
    ensures { (v : Verilog) → Tells scope.now v → Gives result (IsPart (nets v) name.now high low) }
{
    let width = scope.net(name)?;
    if 2 <= width && low <= high && high < width {
        Ok(high - low + 1)
    } else {
        Err(Refused::Fault(Misfit::Unfit))
    }
}

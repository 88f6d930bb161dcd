//! Operands.

ghost use Rattle.std.specs.Prelude.{◌≡◌, ◌++◌, OnOk};
ghost use Rattle.fir_base.specs.Digits.{hexadecimal};
ghost use Rattle.ver_ast.specs.AtomForms.{constant_number, number_of};
ghost use Rattle.ver_ast.specs.Atoms as tree;
ghost use Rattle.ver_ast.specs.Atoms.{atoms_of, bit_select, part_select};
ghost use Rattle.ver_emit.specs.Layout.{atom_text, next_atom_text};

use fir_base::{MemoryOut, Name, put_decimal, put_hexadecimal};
use ver_ast::{Atom, AtomForm, Constant};

/// Appends an operand.
#[cycle(atoms)]
pub fn put_atom(out: &mut Vec<u8>, atom: &Atom) -> Result<(), MemoryOut>
    ensures { OnOk result (out.new.items ≡ out.old.items ++ atom_text atom.now) }
{
    match &atom.form {
        AtomForm::Net(name) => {
            out.extend_from_slice(name.as_bytes())?;
            Ok(())
        }
        AtomForm::Constant(constant) => put_constant(out, *constant),
        AtomForm::BitSelect(name, index) => put_bit_select(out, name, *index),
        AtomForm::PartSelect(name, high, low) => put_part_select(out, name, *high, *low),
        AtomForm::Concat(first, rest) => {
            out.extend_from_slice(b"{")?;
            put_atom(out, first)?;
            put_next_atoms(out, rest.as_slice())?;
            out.extend_from_slice(b"}")?;
            Ok(())
        }
        AtomForm::Repeat(count, copied) => {
            out.extend_from_slice(b"{")?;
            put_decimal(out, u128::from(*count))?;
            out.extend_from_slice(b"{")?;
            put_atom(out, copied)?;
            out.extend_from_slice(b"}}")?;
            Ok(())
        }
    }
}

/// Appends the operands that stand behind another in a concatenation.
#[cycle(atoms)]
fn put_next_atoms(out: &mut Vec<u8>, atoms: &[Atom]) -> Result<(), MemoryOut>
    ensures { OnOk result (out.new.items ≡ out.old.items ++ next_atom_text (atoms_of atoms.now)) }
{
    for atom in atoms {
        out.extend_from_slice(b", ")?;
        put_atom(out, atom)?;
    }
    Ok(())
}

/// Appends a constant.
pub fn put_constant(out: &mut Vec<u8>, constant: Constant) -> Result<(), MemoryOut>
    ensures { OnOk result (out.new.items ≡ out.old.items ++ atom_text (tree.constant constant.width (constant_number constant))) }
{
    put_decimal(out, u128::from(constant.width))?;
    out.extend_from_slice(b"'h")?;
    put_number(out, constant.number)
}

/// Appends the number of a constant.
fn put_number(out: &mut Vec<u8>, number: Option<u128>) -> Result<(), MemoryOut>
    ensures { OnOk result (out.new.items ≡ out.old.items ++ hexadecimal (number_of number)) }
{
    match number {
        Some(number) => put_hexadecimal(out, number),
        // No valid tree has it: 2 ^ 128.
        None => {
            out.extend_from_slice(b"100000000000000000000000000000000")?;
            Ok(())
        }
    }
}

fn put_bit_select(out: &mut Vec<u8>, name: &Name, index: u32) -> Result<(), MemoryOut>
    ensures { OnOk result (out.new.items ≡ out.old.items ++ atom_text (bit_select name.now index)) }
{
    out.extend_from_slice(name.as_bytes())?;
    out.extend_from_slice(b"[")?;
    put_decimal(out, u128::from(index))?;
    out.extend_from_slice(b"]")?;
    Ok(())
}

fn put_part_select(out: &mut Vec<u8>, name: &Name, high: u32, low: u32) -> Result<(), MemoryOut>
    ensures { OnOk result (out.new.items ≡ out.old.items ++ atom_text (part_select name.now high low)) }
{
    out.extend_from_slice(name.as_bytes())?;
    out.extend_from_slice(b"[")?;
    put_decimal(out, u128::from(high))?;
    out.extend_from_slice(b":")?;
    put_decimal(out, u128::from(low))?;
    out.extend_from_slice(b"]")?;
    Ok(())
}

//! Right sides.

ghost use Rattle.std.specs.Prelude.{◌≡◌, ◌++◌, OnOk};
ghost use Rattle.ver_ast.specs.declared.tree.Rhs.TheVariants as rhs;
ghost use Rattle.ver_emit.specs.Layout.{rhs_text, signed_text};

use crate::atom::put_atom;
use crate::operator::{put_between, unary_byte, unsigned_op};
use fir_base::{MemoryOut, Name};
use ver_ast::{Atom, BinaryOp, Rhs, SignedOp, UnaryOp};

/// Appends a right side.
pub fn put_rhs(out: &mut Vec<u8>, rhs: &Rhs) -> Result<(), MemoryOut>
    ensures { OnOk result (out.new.items ≡ out.old.items ++ rhs_text rhs.now) }
{
    match rhs {
        Rhs::Atom(atom) => put_atom(out, atom),
        Rhs::Unary(op, operand) => put_unary(out, *op, operand),
        Rhs::Binary(left, op, right) => put_binary(out, left, *op, right),
        Rhs::Signed(left, op, right) => put_signed(out, left, *op, right),
        Rhs::SignedShift(shifted, distance) => put_signed_shift(out, shifted, distance),
        Rhs::Conditional(condition, one, other) => put_conditional(out, condition, one, other),
        Rhs::Word(array, address) => put_word(out, array, address),
    }
}

fn put_unary(out: &mut Vec<u8>, op: UnaryOp, operand: &Atom) -> Result<(), MemoryOut>
    ensures { OnOk result (out.new.items ≡ out.old.items ++ rhs_text (rhs.Unary op operand.now)) }
{
    out.push(unary_byte(op))?;
    put_atom(out, operand)
}

fn put_binary(out: &mut Vec<u8>, left: &Atom, op: BinaryOp, right: &Atom) -> Result<(), MemoryOut>
    ensures { OnOk result (out.new.items ≡ out.old.items ++ rhs_text (rhs.Binary left.now op right.now)) }
{
    put_atom(out, left)?;
    put_between(out, op)?;
    put_atom(out, right)
}

fn put_signed(out: &mut Vec<u8>, left: &Atom, op: SignedOp, right: &Atom) -> Result<(), MemoryOut>
    ensures { OnOk result (out.new.items ≡ out.old.items ++ rhs_text (rhs.Signed left.now op right.now)) }
{
    put_signed_atom(out, left)?;
    put_between(out, unsigned_op(op))?;
    put_signed_atom(out, right)
}

fn put_signed_shift(out: &mut Vec<u8>, shifted: &Atom, distance: &Atom) -> Result<(), MemoryOut>
    ensures { OnOk result (out.new.items ≡ out.old.items ++ rhs_text (rhs.SignedShift shifted.now distance.now)) }
{
    put_signed_atom(out, shifted)?;
    out.extend_from_slice(b" >>> ")?;
    put_atom(out, distance)
}

fn put_conditional(
    out: &mut Vec<u8>,
    condition: &Atom,
    one: &Atom,
    other: &Atom,
) -> Result<(), MemoryOut>
    ensures { OnOk result (out.new.items ≡ out.old.items ++ rhs_text (rhs.Conditional condition.now one.now other.now)) }
{
    put_atom(out, condition)?;
    out.extend_from_slice(b" ? ")?;
    put_atom(out, one)?;
    out.extend_from_slice(b" : ")?;
    put_atom(out, other)
}

/// A word of an array (IEEE 1364-2005, 5.2.2).
fn put_word(out: &mut Vec<u8>, array: &Name, address: &Atom) -> Result<(), MemoryOut>
    ensures { OnOk result (out.new.items ≡ out.old.items ++ rhs_text (rhs.Word array.now address.now)) }
{
    out.extend_from_slice(array.as_bytes())?;
    out.extend_from_slice(b"[")?;
    put_atom(out, address)?;
    out.extend_from_slice(b"]")?;
    Ok(())
}

/// An operand that is read as a signed number (IEEE 1364-2005, 5.5).
fn put_signed_atom(out: &mut Vec<u8>, atom: &Atom) -> Result<(), MemoryOut>
    ensures { OnOk result (out.new.items ≡ out.old.items ++ signed_text atom.now) }
{
    out.extend_from_slice(b"$signed(")?;
    put_atom(out, atom)?;
    out.extend_from_slice(b")")?;
    Ok(())
}

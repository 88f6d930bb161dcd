//! Operands of a tree as operands by number.

ghost use Rattle.std.specs.Prelude.{◌≡◌, ◌++◌, ◌∷◌, [], ◌%◌, ◌^◌, IfOk, OnOk, sum_by, unwrap_or};
ghost use Rattle.ver_ast.specs.declared.tree.Verilog.{Verilog};
ghost use Rattle.ver_ast.specs.Atoms.{atoms_of};
ghost use Rattle.ver_ast.specs.Nets.{nets};
ghost use Rattle.ver_ast.specs.SoundSides.{IsSound, AreSound};
ghost use Rattle.ver_sim.specs.working.Pieces.{piece_width, copied_pieces, pieces_of, more_pieces};
ghost use Rattle.ver_sim.specs.working.Reads.{IsReadOf};
ghost use Rattle.ver_sim.specs.working.Tables.{Know};

use crate::operand::Operand;
use crate::piece::{Piece, width_of};
use crate::tables::Tables;
use fir_base::MemoryOut;
use std::alloc::Global;
use ver_ast::{Atom, AtomForm, Constant};

/// An operand by number, with its width in bits.
#[derive(Drop)]
pub struct Read {
    pub operand: Operand,
    pub width: u32,
}

/// The operand of the tables' tree by number.
pub fn read_operand(alloc: Global, tables: &Tables, atom: &Atom) -> Result<Read, MemoryOut>
    ensures { IfOk result (λ r. (v : Verilog) → Know v tables.now → IsSound (nets v) atom.now → IsReadOf v r atom.now) }
{
    match &atom.form {
        AtomForm::Net(name) => Ok(Read {
            operand: Operand::Net(tables.place(name)),
            width: tables.width(name),
        }),
        AtomForm::Constant(constant) => Ok(Read {
            operand: Operand::Constant(number_of(*constant)),
            width: constant.width,
        }),
        _ => read_pieces(alloc, tables, atom),
    }
}

/// The number of a constant, and 0 where it has none that fits a width.
fn number_of(constant: Constant) -> u128
    ensures { result ≡ unwrap_or constant.number 0 }
{
    constant.number.unwrap_or(0)
}

/// The pieces of an operand.
fn read_pieces(alloc: Global, tables: &Tables, atom: &Atom) -> Result<Read, MemoryOut>
    ensures { IfOk result (λ r. (v : Verilog) → Know v tables.now → IsSound (nets v) atom.now → IsReadOf v r atom.now) }
{
    let mut pieces = Vec::new(alloc);
    put_pieces(alloc, &mut pieces, tables, atom)?;
    Ok(read_of(pieces))
}

/// An operand of these pieces.
fn read_of(pieces: Vec<Piece>) -> Read
    ensures operand { result.operand ≡ Operand.Pieces pieces }
    ensures width { result.width ≡ sum_by piece_width pieces.items % 2 ^ 32 }
{
    let width = total_width(pieces.as_slice());
    Read {
        operand: Operand::Pieces(pieces),
        width,
    }
}

/// The width of pieces together, which are to have 128 bits at most.
fn total_width(pieces: &[Piece]) -> u32
    ensures { result ≡ sum_by piece_width pieces.now % 2 ^ 32 }
{
    let mut width = 0u32;
    for piece in pieces {
        width = width.wrapping_add(width_of(piece));
    }
    width
}

/// Appends the pieces of an operand.
#[cycle(atoms)]
fn put_pieces(
    alloc: Global,
    out: &mut Vec<Piece>,
    tables: &Tables,
    atom: &Atom,
) -> Result<(), MemoryOut>
    ensures { OnOk result ((v : Verilog) → Know v tables.now → IsSound (nets v) atom.now → out.new.items ≡ out.old.items ++ pieces_of v atom.now) }
{
    match &atom.form {
        AtomForm::Net(name) => {
            let (net, width) = (tables.place(name), tables.width(name));
            put_piece(out, Piece::Part { net, low: 0, width })
        }
        AtomForm::Constant(constant) => {
            let number = number_of(*constant);
            put_piece(
                out,
                Piece::Number {
                    number,
                    width: constant.width,
                },
            )
        }
        AtomForm::BitSelect(name, index) => {
            let net = tables.place(name);
            put_piece(
                out,
                Piece::Part {
                    net,
                    low: *index,
                    width: 1,
                },
            )
        }
        AtomForm::PartSelect(name, high, low) => {
            let net = tables.place(name);
            let width = high.saturating_sub(*low).saturating_add(1);
            put_piece(
                out,
                Piece::Part {
                    net,
                    low: *low,
                    width,
                },
            )
        }
        AtomForm::Concat(first, rest) => {
            put_pieces(alloc, out, tables, first)?;
            put_more_pieces(alloc, out, tables, rest.as_slice())
        }
        AtomForm::Repeat(count, copied) => {
            let mut part = Vec::new(alloc);
            put_pieces(alloc, &mut part, tables, copied)?;
            put_copies(out, part.as_slice(), *count)
        }
    }
}

/// Appends the pieces of operands behind another.
#[cycle(atoms)]
fn put_more_pieces(
    alloc: Global,
    out: &mut Vec<Piece>,
    tables: &Tables,
    atoms: &[Atom],
) -> Result<(), MemoryOut>
    ensures { OnOk result ((v : Verilog) → Know v tables.now → AreSound (nets v) (atoms_of atoms.now) → out.new.items ≡ out.old.items ++ more_pieces v (atoms_of atoms.now)) }
{
    for atom in atoms {
        put_pieces(alloc, out, tables, atom)?;
    }
    Ok(())
}

/// Appends a piece.
fn put_piece(out: &mut Vec<Piece>, piece: Piece) -> Result<(), MemoryOut>
    ensures { OnOk result (out.new.items ≡ out.old.items ++ piece ∷ []) }
{
    out.push(piece)?;
    Ok(())
}

/// Appends copies of pieces.
fn put_copies(out: &mut Vec<Piece>, part: &[Piece], count: u32) -> Result<(), MemoryOut>
    ensures { OnOk result (out.new.items ≡ out.old.items ++ copied_pieces count part.now) }
{
    for _ in 0..count {
        put_all(out, part)?;
    }
    Ok(())
}

/// Appends pieces.
fn put_all(out: &mut Vec<Piece>, part: &[Piece]) -> Result<(), MemoryOut>
    ensures { OnOk result (out.new.items ≡ out.old.items ++ part.now) }
{
    for piece in part {
        out.push(*piece)?;
    }
    Ok(())
}

//! What drives the nets that operands and right sides read.

ghost use Rattle.std.specs.Prelude.{◌≡◌, ◌++◌, [], ◌∷◌, IfOk, OnOk};
ghost use Rattle.ver_ast.specs.Atoms.{atoms_of};
ghost use Rattle.ver_ast.specs.Names.{atom_names, joined_names, rhs_names};
ghost use Rattle.ver_valid.specs.working.Drivers.{drivers_of};

use crate::drivers::Drivers;
use fir_base::{MemoryOut, Name, Seq};
use std::alloc::Global;
use ver_ast::{Atom, AtomForm, Rhs};

/// The processes that drive what the right side reads.
pub fn rhs_drivers(alloc: Global, drivers: &Drivers, rhs: &Rhs) -> Result<Seq<usize>, MemoryOut>
    ensures { IfOk result (λ found. found ≡ drivers_of drivers.now (rhs_names rhs.now)) }
{
    let mut found = Vec::new(alloc);
    match rhs {
        Rhs::Atom(a) | Rhs::Unary(_, a) | Rhs::Word(_, a) => put_drivers(&mut found, drivers, a)?,
        Rhs::Binary(a, _, b) | Rhs::Signed(a, _, b) | Rhs::SignedShift(a, b) => {
            put_drivers(&mut found, drivers, a)?;
            put_drivers(&mut found, drivers, b)?;
        }
        Rhs::Conditional(condition, a, b) => {
            put_drivers(&mut found, drivers, condition)?;
            put_drivers(&mut found, drivers, a)?;
            put_drivers(&mut found, drivers, b)?;
        }
    }
    Ok(Seq::from_vec(found))
}

/// The process that drives the net.
pub fn net_drivers(alloc: Global, drivers: &Drivers, name: &Name) -> Result<Seq<usize>, MemoryOut>
    ensures { IfOk result (λ found. found ≡ drivers_of drivers.now (name.now ∷ [])) }
{
    let mut found = Vec::new(alloc);
    put_driver(&mut found, drivers, name)?;
    Ok(Seq::from_vec(found))
}

/// Appends the processes that drive what the operand reads.
#[cycle(atoms)]
fn put_drivers(out: &mut Vec<usize>, drivers: &Drivers, atom: &Atom) -> Result<(), MemoryOut>
    ensures { OnOk result (out.new.items ≡ out.old.items ++ drivers_of drivers.now (atom_names atom.now)) }
{
    match &atom.form {
        AtomForm::Net(name) | AtomForm::BitSelect(name, _) | AtomForm::PartSelect(name, _, _) => {
            put_driver(out, drivers, name)
        }
        AtomForm::Constant(_) => Ok(()),
        AtomForm::Concat(first, rest) => {
            put_drivers(out, drivers, first)?;
            put_more_drivers(out, drivers, rest.as_slice())
        }
        AtomForm::Repeat(_, copied) => put_drivers(out, drivers, copied),
    }
}

/// Appends the processes that drive what the operands behind another read.
#[cycle(atoms)]
fn put_more_drivers(
    out: &mut Vec<usize>,
    drivers: &Drivers,
    atoms: &[Atom],
) -> Result<(), MemoryOut>
    ensures { OnOk result (out.new.items ≡ out.old.items ++ drivers_of drivers.now (joined_names (atoms_of atoms.now))) }
{
    for atom in atoms {
        put_drivers(out, drivers, atom)?;
    }
    Ok(())
}

/// Appends the process that drives the net, if one does.
fn put_driver(out: &mut Vec<usize>, drivers: &Drivers, name: &Name) -> Result<(), MemoryOut>
    ensures { OnOk result (out.new.items ≡ out.old.items ++ drivers_of drivers.now (name.now ∷ [])) }
{
    if let Some(process) = drivers.process(name) {
        out.push(process)?;
    }
    Ok(())
}

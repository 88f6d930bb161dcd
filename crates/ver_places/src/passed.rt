//! The places behind those of parts of a tree, which has one for each word, number, constant, `$signed`, `[` and `{` of its
//! tokens.

ghost use Rattle.std.specs.Prelude.{◌≡◌, drop, flat_map};
ghost use Rattle.ver_ast.specs.declared.tree.Item.TheVariants as item_form;
ghost use Rattle.ver_ast.specs.Atoms.{atoms_of};
ghost use Rattle.ver_ast.specs.Grammar.{atom_tokens, item_tokens, next_atom_tokens, port_tokens, rhs_tokens, write_tokens};
ghost use Rattle.ver_places.specs.Places.{behind, range_places};

use crate::places::behind;
use ver_ast::{Atom, AtomForm, Item, Port, Resetting, Rhs, VPlace, Write};

/// How many places a range has: none is written for a width of 1.
pub fn range_places(width: u32) -> usize
    ensures { result ≡ range_places width }
{
    if width == 1 { 0 } else { 3 }
}

/// Behind a port.
pub fn behind_port<'a>(places: &'a [VPlace], port: &Port) -> &'a [VPlace]
    ensures { result.now ≡ behind (port_tokens port.now) places.now }
{
    let words = if port.is_clock { 2 } else { 1 };
    behind(places, words + range_places(port.width) + 1)
}

/// Behind ports.
pub fn behind_ports<'a>(places: &'a [VPlace], ports: &[Port]) -> &'a [VPlace]
    ensures { result.now ≡ behind (flat_map port_tokens ports.now) places.now }
{
    let mut next = places;
    for port in ports {
        next = behind_port(next, port);
    }
    next
}

/// Behind an operand.
#[cycle(atoms)]
fn behind_atom<'a>(places: &'a [VPlace], atom: &Atom) -> &'a [VPlace]
    ensures { result.now ≡ behind (atom_tokens atom.now) places.now }
{
    match &atom.form {
        AtomForm::Net(_) | AtomForm::Constant(_) => behind(places, 1),
        AtomForm::BitSelect(_, _) => behind(places, 3),
        AtomForm::PartSelect(_, _, _) => behind(places, 4),
        AtomForm::Concat(first, rest) => {
            let rest_places = behind_atom(behind(places, 1), first);
            behind_atoms(rest_places, rest.as_slice())
        }
        AtomForm::Repeat(_, copied) => behind_atom(behind(places, 3), copied),
    }
}

/// Behind operands of a concatenation that stand behind another.
#[cycle(atoms)]
fn behind_atoms<'a>(places: &'a [VPlace], atoms: &[Atom]) -> &'a [VPlace]
    ensures { result.now ≡ behind (next_atom_tokens (atoms_of atoms.now)) places.now }
{
    let mut next = places;
    for atom in atoms {
        next = behind_atom(next, atom);
    }
    next
}

/// Behind a right side.
fn behind_side<'a>(places: &'a [VPlace], rhs: &Rhs) -> &'a [VPlace]
    ensures { result.now ≡ behind (rhs_tokens rhs.now) places.now }
{
    match rhs {
        Rhs::Atom(a) => behind_atom(places, a),
        Rhs::Unary(_, a) => behind_atom(places, a),
        Rhs::Binary(a, _, b) => behind_atom(behind_atom(places, a), b),
        Rhs::Signed(a, _, b) => {
            let first = behind_atom(behind(places, 1), a);
            behind_atom(behind(first, 1), b)
        }
        Rhs::SignedShift(a, b) => behind_atom(behind_atom(behind(places, 1), a), b),
        Rhs::Conditional(c, a, b) => {
            let condition = behind_atom(places, c);
            behind_atom(behind_atom(condition, a), b)
        }
        Rhs::Word(_, a) => behind_atom(behind(places, 2), a),
    }
}

/// The places of a write from its array's on.
pub fn array_places<'a>(places: &'a [VPlace], write: &Write) -> &'a [VPlace]
    ensures { result.now ≡ behind (atom_tokens write.now.condition) (drop 1 places.now) }
{
    behind_atom(behind(places, 1), &write.condition)
}

/// Behind a write of an array.
fn behind_write<'a>(places: &'a [VPlace], write: &Write) -> &'a [VPlace]
    ensures { result.now ≡ behind (write_tokens write.now) places.now }
{
    let condition = behind_atom(behind(places, 1), &write.condition);
    let index = behind_atom(behind(condition, 2), &write.index);
    behind_atom(index, &write.source)
}

/// Behind writes of an array.
fn behind_writes<'a>(places: &'a [VPlace], writes: &[Write]) -> &'a [VPlace]
    ensures { result.now ≡ behind (flat_map write_tokens writes.now) places.now }
{
    let mut next = places;
    for write in writes {
        next = behind_write(next, write);
    }
    next
}

/// Behind the block of a register with an asynchronous reset.
fn behind_resetting<'a>(places: &'a [VPlace], block: &Resetting) -> &'a [VPlace]
    ensures { result.now ≡ behind (item_tokens (item_form.Resetting block.now)) places.now }
{
    match &block.edge {
        None => behind(places, 7),
        Some(edge) => behind_atom(behind(places, 12), &edge.source),
    }
}

/// Behind an item.
pub fn behind_item<'a>(places: &'a [VPlace], item: &Item) -> &'a [VPlace]
    ensures { result.now ≡ behind (item_tokens item.now) places.now }
{
    match item {
        Item::Wire(net) => behind(places, 2 + range_places(net.width)),
        Item::Reg(net) => behind(places, 2 + range_places(net.width)),
        Item::Array(array) => behind(places, 5 + range_places(array.width)),
        Item::Assign(assign) => behind_side(behind(places, 2), &assign.rhs),
        Item::Always(block) => behind_atom(behind(places, 4), &block.source),
        Item::Resetting(block) => behind_resetting(places, block),
        Item::Writing(block) => {
            let writes = behind_writes(behind(places, 4), block.writes.as_slice());
            behind(writes, 1)
        }
    }
}

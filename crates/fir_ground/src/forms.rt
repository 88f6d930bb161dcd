//! The nodes of a form, behind those of its operands.

ghost use Rattle.std.specs.Prelude.{◌≡◌, ◌<◌, List, [], ◌∷◌, map, length, IfOk};
ghost use Rattle.fir_meaning.specs.working.Leafed.{muxes};
ghost use Rattle.fir_leaf.specs.working.Nodes.{AllBelow, node_term};
ghost use Rattle.fir_meaning.specs.working.Terms.{literal as written, operation, terms_of, validif as guarded};
ghost use Rattle.fir_types.specs.working.Notes.{Note as Meant};
ghost use Rattle.fir_ground.specs.declared.ground.Ground.{Ground as GroundOfCode};
ghost use Rattle.fir_ground.specs.working.Grounds.{Ahead, Expands, types_in};

use crate::leafwise::{mux_all, one, validif_all};
use crate::walk::Walk;
use fir_ast::Literal;
use fir_base::MemoryOut;
use fir_bits::PrimOp;
use fir_leaf::{Node, add};
use std::alloc::Global;

/// A literal.
pub fn on_literal(
    alloc: Global,
    walk: &mut Walk,
    literal: &Literal,
) -> Result<Vec<usize>, MemoryOut>
    ensures { (scene : GroundOfCode) (note : Meant) (rest : List Meant) → Ahead (types_in scene) walk.old.notes.now (note ∷ rest) → IfOk result (λ ids. Expands scene rest walk.old walk.new ids.items (written literal.now ∷ [])) }
{
    walk.pass_note();
    let id = add(&mut walk.nodes, Node::Literal(*literal))?;
    Ok(one(alloc, id)?)
}

/// An operation on the first leaves of operands.
pub fn on_operation(
    alloc: Global,
    walk: &mut Walk,
    op: PrimOp,
    operands: Vec<usize>,
    integers: &[u128],
) -> Result<Vec<usize>, MemoryOut>
    ensures { (scene : GroundOfCode) (note : Meant) (rest : List Meant) → Ahead (types_in scene) walk.old.notes.now (note ∷ rest) → IfOk result (λ ids. Expands scene rest walk.old walk.new ids.items (operation op (terms_of (map (node_term walk.old.nodes.items) operands.items)) integers.now ∷ [])) }
{
    walk.pass_note();
    let integers = Vec::from_slice(alloc, integers)?;
    let id = add(&mut walk.nodes, Node::Operation(op, operands, integers))?;
    Ok(one(alloc, id)?)
}

/// A mux, leaf by leaf.
pub fn on_mux(
    alloc: Global,
    walk: &mut Walk,
    condition: usize,
    ones: &[usize],
    others: &[usize],
) -> Result<Vec<usize>, MemoryOut>
    ensures { (scene : GroundOfCode) (note : Meant) (rest : List Meant) → Ahead (types_in scene) walk.old.notes.now (note ∷ rest) → condition < length walk.old.nodes.items → AllBelow (length walk.old.nodes.items) ones.now → AllBelow (length walk.old.nodes.items) others.now → IfOk result (λ ids. Expands scene rest walk.old walk.new ids.items (muxes (node_term walk.old.nodes.items condition) (map (node_term walk.old.nodes.items) ones.now) (map (node_term walk.old.nodes.items) others.now))) }
{
    walk.pass_note();
    Ok(mux_all(alloc, &mut walk.nodes, condition, ones, others)?)
}

/// A validif, leaf by leaf.
pub fn on_validif(
    alloc: Global,
    walk: &mut Walk,
    condition: usize,
    values: &[usize],
) -> Result<Vec<usize>, MemoryOut>
    ensures { (scene : GroundOfCode) (note : Meant) (rest : List Meant) → Ahead (types_in scene) walk.old.notes.now (note ∷ rest) → condition < length walk.old.nodes.items → AllBelow (length walk.old.nodes.items) values.now → IfOk result (λ ids. Expands scene rest walk.old walk.new ids.items (map (guarded (node_term walk.old.nodes.items condition)) (map (node_term walk.old.nodes.items) values.now))) }
{
    walk.pass_note();
    Ok(validif_all(alloc, &mut walk.nodes, condition, values)?)
}

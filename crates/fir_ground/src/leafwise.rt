//! Nodes of forms, leaf by leaf.

ghost use Rattle.std.specs.Prelude.{◌≡◌, ◌<◌, [], ◌∷◌, map, length, IfOk};
ghost use Rattle.fir_meaning.specs.working.Leafed.{first_term, muxes};
ghost use Rattle.fir_leaf.specs.working.Nodes.{AllBelow, Gives, Shows, node_term};
ghost use Rattle.fir_meaning.specs.working.Terms.{validif as guarded};

use fir_base::MemoryOut;
use fir_leaf::{Node, add};
use std::alloc::Global;

/// A node alone.
pub fn one(alloc: Global, node: usize) -> Result<Vec<usize>, MemoryOut>
    ensures { IfOk result (λ ids. ids.items ≡ node ∷ []) }
{
    let mut ids = Vec::new(alloc);
    ids.push(node)?;
    Ok(ids)
}

/// The first of the nodes of an expression; where it has none, one that stands for zeros.
pub fn first(nodes: &mut Vec<Node>, ids: &[usize]) -> Result<usize, MemoryOut>
    ensures { AllBelow (length nodes.old.items) ids.now → IfOk result (λ id. Shows nodes.old.items nodes.new.items id (first_term (map (node_term nodes.old.items) ids.now))) }
{
    match ids.first() {
        Some(id) => Ok(*id),
        None => Ok(add(nodes, Node::Zeros)?),
    }
}

/// A mux of each leaf of two values: of that of the first where the condition is 1. A leaf that only one of
/// them has is left out.
pub fn mux_all(
    alloc: Global,
    nodes: &mut Vec<Node>,
    condition: usize,
    ones: &[usize],
    others: &[usize],
) -> Result<Vec<usize>, MemoryOut>
    ensures { condition < length nodes.old.items → AllBelow (length nodes.old.items) ones.now → AllBelow (length nodes.old.items) others.now → IfOk result (λ ids. Gives nodes.old.items nodes.new.items ids.items (muxes (node_term nodes.old.items condition) (map (node_term nodes.old.items) ones.now) (map (node_term nodes.old.items) others.now))) }
{
    let mut ids = Vec::new(alloc);
    for (one, other) in ones.iter().zip(others) {
        let id = add(nodes, Node::Mux(condition, *one, *other))?;
        ids.push(id)?;
    }
    Ok(ids)
}

/// A validif of each leaf of a value.
pub fn validif_all(
    alloc: Global,
    nodes: &mut Vec<Node>,
    condition: usize,
    values: &[usize],
) -> Result<Vec<usize>, MemoryOut>
    ensures { condition < length nodes.old.items → AllBelow (length nodes.old.items) values.now → IfOk result (λ ids. Gives nodes.old.items nodes.new.items ids.items (map (guarded (node_term nodes.old.items condition)) (map (node_term nodes.old.items) values.now))) }
{
    let mut ids = Vec::new(alloc);
    for value in values {
        let id = add(nodes, Node::Validif(condition, *value))?;
        ids.push(id)?;
    }
    Ok(ids)
}

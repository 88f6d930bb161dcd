//! The nodes of a module in its net.

ghost use Rattle.std.specs.Prelude.{◌≡◌, IfOk, length, map};
ghost use Rattle.fir_leaf.specs.working.Nodes.{entries, entry_of};
ghost use Rattle.fir_bits.specs.Forms.{no_type};
ghost use Rattle.fir_connect.specs.working.Lowered.{zero_of};
ghost use Rattle.fir_merge.specs.working.Bounds.{Grown, StandsFor, types_in};
ghost use Rattle.fir_merge.specs.working.Entries.{BoundsBelow, EntriesStand, EntryStands, value_in};
ghost use Rattle.fir_merge.specs.working.NodeTerms.{Grows, IsBelow};

use crate::bound::Bound;
use crate::index::indices_at;
use crate::narrow::{add_literal, add_validif};
use crate::net_nodes::NetNodes;
use crate::reads::{add_absent, add_read};
use crate::values::{add_choice, add_operation, add_zero};
use fir_base::MemoryOut;
use fir_bits::{NO_TYPE, NumTy};
use fir_leaf::Node;
use std::alloc::Global;

/// Puts what the nodes of a module stand for into its net, where the leaves have these types: for each node where its
/// value is; for that of an index, where the value of its expression is.
pub fn lower_nodes(
    alloc: Global,
    types: &[NumTy],
    nodes: &[Node],
    net: &mut NetNodes,
) -> Result<Vec<Bound>, MemoryOut>
    ensures below { IfOk result (λ bs. Grows net.old net.new × BoundsBelow (length net.new) bs.items) }
    ensures stand { IfOk result (λ bs. EntriesStand (types_in types.now) net.new bs.items (entries nodes.now)) }
{
    let nothing = add_zero(net, NO_TYPE)?;
    let mut bounds = Vec::new(alloc);
    for place in 0..nodes.len() {
        let (before, node) = (&nodes[..place], &nodes[place]);
        let bound = lower_node(alloc, types, before, &bounds, &nothing, net, node)?;
        bounds.push(bound)?;
    }
    Ok(bounds)
}

/// Puts in what a node stands for behind the others.
fn lower_node(
    alloc: Global,
    types: &[NumTy],
    before: &[Node],
    bounds: &[Bound],
    nothing: &Bound,
    net: &mut NetNodes,
    node: &Node,
) -> Result<Bound, MemoryOut>
    requires bounds { BoundsBelow (length net.old) bounds.now }
    requires nothing { IsBelow (length net.old) nothing.now.read }
    ensures grown { IfOk result (Grown net.old net.new) }
    ensures stands { IfOk result (λ b. StandsFor (types_in types.now) net.old nothing.now (zero_of no_type) → EntriesStand (types_in types.now) net.old bounds.now (entries before.now) → EntryStands (types_in types.now) net.new b (entry_of (entries before.now) node.now)) }
{
    match node {
        Node::Zeros => Ok(*nothing),
        Node::Absent(signed, width, picks) => {
            let indices = indices_at(alloc, before, bounds, *picks)?;
            add_absent(alloc, net, *signed, *width, &indices, nothing)
        }
        Node::Literal(literal) => add_literal(net, literal, *nothing),
        Node::Read(leaf, picks) => {
            let indices = indices_at(alloc, before, bounds, *picks)?;
            add_read(alloc, net, types, *leaf, &indices, nothing)
        }
        Node::Pick(pick) => Ok(value_at(before, bounds, nothing, pick.index)),
        Node::Operation(op, operands, integers) => {
            let operands = values_at(alloc, before, bounds, nothing, operands)?;
            add_operation(alloc, net, *op, &operands, integers)
        }
        Node::Mux(c, a, b) => {
            let c = value_at(before, bounds, nothing, *c);
            let a = value_at(before, bounds, nothing, *a);
            let b = value_at(before, bounds, nothing, *b);
            add_choice(net, c, a, b)
        }
        Node::Validif(c, a) => {
            let c = value_at(before, bounds, nothing, *c);
            let a = value_at(before, bounds, nothing, *a);
            add_validif(net, c, a, *nothing)
        }
    }
}

/// Where the value of the node at a place is; an index has none.
pub fn value_at(nodes: &[Node], bounds: &[Bound], nothing: &Bound, place: usize) -> Bound
    ensures { result ≡ value_in nodes.now bounds.now nothing.now place }
{
    match (nodes.get(place), bounds.get(place)) {
        (Some(Node::Pick(_)), _) => *nothing,
        (Some(_), Some(bound)) => *bound,
        _ => *nothing,
    }
}

/// Those of several nodes.
fn values_at(
    alloc: Global,
    nodes: &[Node],
    bounds: &[Bound],
    nothing: &Bound,
    places: &[usize],
) -> Result<Vec<Bound>, MemoryOut>
    ensures { IfOk result (λ found. found.items ≡ map (value_in nodes.now bounds.now nothing.now) places.now) }
{
    let mut values = Vec::new(alloc);
    for place in places {
        values.push(value_at(nodes, bounds, nothing, *place))?;
    }
    Ok(values)
}

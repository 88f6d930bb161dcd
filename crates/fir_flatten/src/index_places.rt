//! Where dynamic indices stand, and which of them comes first in the text (FIRRTL spec, "Sub-accesses").

ghost use Rattle.std.specs.Prelude.{◌≡◌, ◌++◌, List};
ghost use Rattle.fir_ast.specs.declared.place.Place.{Place};
ghost use Rattle.fir_driven.specs.working.Indices.{earlier};
ghost use Rattle.fir_leaf.specs.working.ClockFaults.{index_places, picking_places};
ghost use Rattle.fir_leaf.specs.working.Nodes.{entries, node_term, picks_at};
ghost use Rattle.fir_meaning.specs.Lack.{is_before};
ghost use Rattle.fir_flatten.specs.working.FirstIndices.{IsFirstOf};

use fir_ast::Place;
use fir_driven::index_at;
use fir_leaf::Node;

/// The first place of the indices of which this is the node of the last, where there are any.
pub fn first_index(nodes: &[Node], picks: Option<usize>) -> Option<Place>
    ensures { IsFirstOf (index_places (picks_at (entries nodes.now) picks)) result }
{
    let mut first = None;
    let mut next = picks;
    while let Some(pick) = index_at(nodes, next) {
        first = earlier(Some(pick.place), first);
        next = pick.before;
    }
    first
}

/// The first place of the indices that pick the leaf that a node gives.
pub fn first_picking(nodes: &[Node], node: usize) -> Option<Place>
    ensures { IsFirstOf (picking_places (node_term nodes.now node)) result }
{
    match nodes.get(node)? {
        Node::Read(_, picks) | Node::Absent(_, _, picks) => {
            first_index(nodes, earlier_node(node, *picks))
        }
        _ => None,
    }
}

/// A node counts on earlier ones alone.
fn earlier_node(node: usize, before: Option<usize>) -> Option<usize>
    ensures { result ≡ earlier node before }
{
    before.filter(|before| *before < node)
}

/// The first of two places, of which one or both may be missing; of the same place the first.
pub fn earlier(one: Option<Place>, other: Option<Place>) -> Option<Place>
    ensures { (ps qs : List Place) → IsFirstOf ps one → IsFirstOf qs other → IsFirstOf (ps ++ qs) result }
{
    match (one, other) {
        (Some(one), Some(other)) => Some(if is_before(other, one) { other } else { one }),
        (one, None) => one,
        (None, other) => other,
    }
}

/// Whether a place comes before another in the text.
pub fn is_before(one: Place, other: Place) -> bool
    ensures { result ≡ is_before one other }
{
    one.line < other.line || one.line == other.line && one.col < other.col
}

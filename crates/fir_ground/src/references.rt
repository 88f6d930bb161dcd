//! What a reference names, behind the expressions in its indices.

ghost use Rattle.std.specs.Prelude.{◌≡◌, ◌&&◌, ◌∷◌, List, IfOk, length, map, nat_lt, true};
ghost use Rattle.fir_ast.specs.Statements.{SinkReference};
ghost use Rattle.fir_leaf.specs.working.Nodes.{entries, picks_at};
ghost use Rattle.fir_meaning.specs.working.Terms.{Picks, no_picks};
ghost use Rattle.fir_meaning.specs.Reaching.{Reached};
ghost use Rattle.fir_meaning.specs.TypedScopes.{TypedScope};
ghost use Rattle.fir_meaning.specs.working.WellTyped.{Reaches as ReachesThere};
ghost use Rattle.fir_types.specs.declared.note.LeafRange.{LeafRange as RangeOfCode};
ghost use Rattle.fir_types.specs.working.Noted.{pick_seen};
ghost use Rattle.fir_types.specs.working.Notes.{Note as Meant, reference_note};
ghost use Rattle.fir_ground.specs.working.Grounds.{Enters, Reaches};
ghost use Rattle.fir_leaf_pairs.specs.working.TargetNames.{PicksWithin};
ghost use Rattle.fir_meaning.specs.working.Leafed.{target_of};
ghost use Rattle.fir_ground.specs.working.Indices.{AreIndices, Index as IndexMeant, IsChained, IsPicked, base_of, index_seen, indices_in, pick_behind, picks_behind, there_behind};

use crate::ground::Ground;
use crate::walk::Walk;
use fir_ast::Place;
use fir_base::MemoryOut;
use fir_leaf::{Node, Pick, add};
use fir_leaf_pairs::Target;
use fir_types::{Found, LeafRange, Note, Pick as Elements};

/// A dynamic index: where its expression stands, and the node of that.
#[derive(Clone, Copy)]
pub struct Index {
    pub place: Place,
    pub node: usize,
}

/// How far the indices of a reference have come.
#[derive(Clone, Copy)]
pub struct Chain {
    /// Whether each vector so far has elements.
    pub is_there: bool,
    /// The node of the last index.
    pub picks: Option<usize>,
}

/// For a reference that reaches nothing, which none does in a circuit that has types.
const NOWHERE: Target = Target {
    base: None,
    picks: None,
    found: Found::AsyncReset,
};

/// What a reference names, by its note, which is passed, and its dynamic indices, in the order of the text.
pub fn named(ground: &Ground, walk: &mut Walk, indices: &[Index]) -> Result<Target, MemoryOut>
    ensures { (typed : TypedScope) (s : SinkReference) (r : Reached) (rest : List Meant) → Enters ground.now typed (reference_note typed s ∷ rest) walk.old → ReachesThere typed s r → AreIndices walk.old.nodes.items indices.now (indices_in typed s.parts) → IfOk result (λ t. Reaches ground.now rest walk.old walk.new t (target_of typed s)) }
{
    let [note, ..] = walk.notes else {
        return Ok(NOWHERE);
    };
    walk.pass_note();
    match note {
        Note::Reference(range) => Ok(picked(ground, &mut walk.nodes, range, indices)?),
        Note::Expression(_) => Ok(NOWHERE),
    }
}

/// The leaves of a range, if a reference has one, behind its indices.
fn picked(
    ground: &Ground,
    nodes: &mut Vec<Node>,
    range: &Option<LeafRange>,
    indices: &[Index],
) -> Result<Target, MemoryOut>
    ensures { (own : RangeOfCode) (meant : List IndexMeant) → range.now ≡ Some own → AreIndices nodes.old.items indices.now meant → IfOk result (IsPicked ground.now.firsts.now own meant nodes.old.items nodes.new.items) }
{
    let Some(range) = range else {
        return Ok(NOWHERE);
    };
    let chain = chained(nodes, indices, &range.picks)?;
    Ok(Target {
        base: base(ground, range, chain.is_there),
        picks: chain.picks,
        found: range.found,
    })
}

/// The number of the first leaf of a range.
fn base(ground: &Ground, range: &LeafRange, is_there: bool) -> Option<usize>
    ensures { result ≡ base_of ground.now.firsts.now range.now is_there }
{
    if !is_there {
        return None;
    }
    let first = ground.firsts.get(range.declaration)?;
    Some(first.saturating_add(range.offset as usize))
}

/// A node for each index, each behind the one before it.
fn chained(nodes: &mut Vec<Node>, indices: &[Index], picks: &[Elements]) -> Result<Chain, MemoryOut>
    ensures { (meant : List IndexMeant) → AreIndices nodes.old.items indices.now meant → IfOk result (λ chain. IsChained nodes.old.items nodes.new.items chain (there_behind true meant (map pick_seen picks.now)) (picks_behind true no_picks meant (map pick_seen picks.now))) }
{
    let mut chain = Chain {
        is_there: true,
        picks: None,
    };
    for (index, elements) in indices.iter().zip(picks) {
        chain = behind(nodes, chain, *index, *elements)?;
    }
    Ok(chain)
}

/// One index more, which picks one of these elements. Where a vector has no elements, how far they are apart
/// tells nothing.
fn behind(
    nodes: &mut Vec<Node>,
    chain: Chain,
    index: Index,
    elements: Elements,
) -> Result<Chain, MemoryOut>
    ensures { (ps : Picks) → PicksWithin (length nodes.old.items) chain.picks → picks_at (entries nodes.old.items) chain.picks ≡ ps → IfOk result (λ next. IsChained nodes.old.items nodes.new.items next (chain.is_there && nat_lt 0 elements.length) (pick_behind chain.is_there ps (index_seen nodes.old.items index) (pick_seen elements))) }
{
    let is_there = chain.is_there && elements.length > 0;
    let stride = if is_there { elements.stride } else { 0 };
    let pick = Pick {
        before: chain.picks,
        place: index.place,
        index: index.node,
        length: elements.length,
        stride,
    };
    let id = add(nodes, Node::Pick(pick))?;
    Ok(Chain {
        is_there,
        picks: Some(id),
    })
}

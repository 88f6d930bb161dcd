//! The leaves that a statement may drive: one, or each that its indices may pick (FIRRTL spec, "Sub-accesses").

ghost use Rattle.std.specs.Prelude.{◌≡◌, ◌++◌, IfNone, IfOk, IfSome, OnOk};
ghost use Rattle.fir_meaning.specs.working.Terms.{no_picks};
ghost use Rattle.fir_meaning.specs.working.TermReads.{is_picked, multiples, reached};
ghost use Rattle.fir_leaf.specs.working.Nodes.{entries, picks_at};
ghost use Rattle.fir_driven.specs.working.Indices.{IsIndex, earlier, elements_behind};

use fir_base::MemoryOut;
use fir_leaf::{Node, Pick};
use std::alloc::Global;

/// Whether indices lead to the leaf, of which this is the node of the last.
pub fn is_picked(nodes: &[Node], picks: Option<usize>) -> bool
    ensures { result ≡ is_picked (picks_at (entries nodes.now) picks) }
{
    index_at(nodes, picks).is_some()
}

/// The index at a node, where there is one. It counts on an earlier node, or on none.
pub fn index_at(nodes: &[Node], picks: Option<usize>) -> Option<Pick>
    ensures index { IfSome result (IsIndex nodes.now picks) }
    ensures none { IfNone result (picks_at (entries nodes.now) picks ≡ no_picks) }
{
    let place = picks?;
    match nodes.get(place)? {
        Node::Pick(pick) => Some(Pick {
            before: earlier(place, pick.before),
            ..*pick
        }),
        _ => None,
    }
}

/// A node counts on earlier ones alone.
fn earlier(place: usize, before: Option<usize>) -> Option<usize>
    ensures { result ≡ earlier place before }
{
    before.filter(|before| *before < place)
}

/// The numbers of the leaves that the indices may pick, counted from the first. Only memory can be wanting.
pub fn reached_leaves(
    alloc: Global,
    nodes: &[Node],
    first: usize,
    picks: Option<usize>,
) -> Result<Vec<usize>, MemoryOut>
    ensures { IfOk result (λ xs. xs.items ≡ reached first (picks_at (entries nodes.now) picks)) }
{
    let mut indices = Vec::new(alloc);
    let mut next = picks;
    while let Some(pick) = index_at(nodes, next) {
        indices.push(pick)?;
        next = pick.before;
    }
    let mut leaves = vec![in alloc; first]?;
    while let Some(pick) = indices.pop() {
        leaves = each_element(alloc, &leaves, pick)?;
    }
    Ok(leaves)
}

/// Behind each leaf those of all elements.
fn each_element(alloc: Global, firsts: &[usize], pick: Pick) -> Result<Vec<usize>, MemoryOut>
    ensures { IfOk result (λ xs. xs.items ≡ elements_behind pick firsts.now) }
{
    let mut leaves = Vec::new(alloc);
    for first in firsts {
        push_elements(&mut leaves, *first, pick)?;
    }
    Ok(leaves)
}

/// The leaf and those of further elements, behind others.
fn push_elements(leaves: &mut Vec<usize>, first: usize, pick: Pick) -> Result<(), MemoryOut>
    ensures { OnOk result (leaves.new.items ≡ leaves.old.items ++ multiples first pick.length pick.stride) }
{
    let mut leaf = first;
    for _ in 0..pick.length {
        leaves.push(leaf)?;
        leaf = leaf.checked_add(pick.stride as usize).ok_or(MemoryOut)?;
    }
    Ok(())
}

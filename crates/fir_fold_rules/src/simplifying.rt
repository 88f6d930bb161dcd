//! The rules, one behind the other.

ghost use Rattle.std.specs.Prelude.{[], IfOk, IfSome};
ghost use Rattle.fir_net.specs.working.IsNet.{AreNodes, IsNode, node_type};
ghost use Rattle.fir_fold_rules.specs.working.Folded.{IsFolded};
ghost use Rattle.fir_fold_rules.specs.working.Simplifies.{AreNarrow, Simplifies};
ghost use Rattle.fir_fold_rules.specs.working.Terms.{IsTerm, Stands};

use crate::checking::has_type;
use crate::literals::folded;
use crate::lookups::node_type;
use crate::making::replacement;
use crate::replacement::Replacement;
use crate::rules::proposed;
use crate::term::{Term, term_of};
use fir_base::MemoryOut;
use fir_bits::NumTy;
use fir_net::{Leaf, Node};
use indexmap::IndexSet;
use std::alloc::Global;

/// How often the rules are tried.
const ROUNDS: u32 = 8;

/// What stands in the place of a node that is to be put behind those that there are, which are simplified already. Only
/// memory can be wanting.
#[tactic(auto, using(crate::proofs::Replacements::node_counts, crate::proofs::Replacements::node_term))]
pub fn simplified(
    alloc: Global,
    leaves: &[Leaf],
    nodes: &IndexSet<Node>,
    node: Node,
) -> Result<Replacement, MemoryOut>
    requires narrow { AreNarrow leaves.now }
    requires nodes { AreNodes leaves.now [] nodes.now.keys }
    requires node { IsNode leaves.now nodes.now.keys node }
    ensures { IfOk result (Simplifies leaves.now nodes.now.keys node) }
{
    let ty = node_type(&node);
    let term = simplest(leaves, nodes, ty, &term_of(&node), ROUNDS);
    replacement(alloc, ty, &term)
}

/// What the term is simplified to by at most so many rounds of rules.
fn simplest(leaves: &[Leaf], nodes: &IndexSet<Node>, ty: NumTy, term: &Term, rounds: u32) -> Term
    requires narrow { AreNarrow leaves.now }
    requires nodes { AreNodes leaves.now [] nodes.now.keys }
    requires is { IsTerm leaves.now nodes.now.keys ty term.now }
    ensures stands { Stands leaves.now nodes.now.keys ty term.now result }
    ensures folded { IsFolded nodes.now.keys result }
{
    let term = folded(leaves, nodes, ty, term);
    if rounds == 0 {
        return term;
    }
    match rewritten(leaves, nodes, ty, &term) {
        Some(next) => simplest(leaves, nodes, ty, &next, rounds - 1),
        None => term,
    }
}

/// What a rule puts in the term's place, of the term's type.
fn rewritten(leaves: &[Leaf], nodes: &IndexSet<Node>, ty: NumTy, term: &Term) -> Option<Term>
    requires nodes { AreNodes leaves.now [] nodes.now.keys }
    requires is { IsTerm leaves.now nodes.now.keys ty term.now }
    ensures { IfSome result (Stands leaves.now nodes.now.keys ty term.now) }
{
    let next = proposed(leaves, nodes, ty, term)?;
    if has_type(leaves, nodes, ty, &next) {
        Some(next)
    } else {
        None
    }
}

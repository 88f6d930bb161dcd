//! The first leaf of a module that some choice leaves undriven.

ghost use Rattle.std.specs.Prelude.{◌≡◌, IfOk};
ghost use Rattle.fir_ast.specs.working.Views.{circuit_of};
ghost use Rattle.fir_whens.specs.working.CoveredModules.{IsFirstNotCovered, depths_of, is_sink_role};
ghost use Rattle.fir_whens.specs.working.ModuleFaults.{IsFoundOf};

use fir_ast::FirFault;
use fir_base::{MemoryOut, Seq};
use fir_driven::{covered_is_driven, covered_leaves, first_choice, missed_is_first};
use fir_leaf_circuit::{LeafCircuit, LeafModule, LeafRole};
use fir_leaf_text::leaf_text;
use std::alloc::Global;

/// The fault of the first leaf of the module of that number that some choice leaves undriven, if one does.
pub fn undriven_leaf(
    alloc: Global,
    circuit: &LeafCircuit,
    module_number: usize,
) -> Result<Option<FirFault>, MemoryOut>
    ensures { IfOk result (λ f. IsFoundOf (circuit_of circuit.now) module_number f) }
{
    covered_is_driven();
    missed_is_first();
    let Some(part) = circuit.modules().get(module_number) else {
        return Ok(None);
    };
    let Some(leaf) = first_not_covered(alloc, part)? else {
        return Ok(None);
    };
    let place = part.leaves[leaf].place;
    let depth = part.leaves[leaf].depth;
    let text = leaf_text(alloc, circuit, module_number, leaf)?;
    let choice = first_choice(alloc, leaf, depth, &part.nodes, &part.body)?;
    Ok(Some(FirFault::Undriven(place, text, Seq::from_vec(choice))))
}

/// The number of the first leaf that statements must drive and that none covers.
fn first_not_covered(alloc: Global, part: &LeafModule) -> Result<Option<usize>, MemoryOut>
    ensures { IfOk result (λ leaf. IsFirstNotCovered part.now leaf) }
{
    let depths = depths_of(alloc, part)?;
    let covered = covered_leaves(alloc, &depths, &part.nodes, &part.body)?;
    for number in 0..part.leaves.len() {
        if is_sink(part.leaves[number].role) && !covered[number] {
            return Ok(Some(number));
        }
    }
    Ok(None)
}

/// How many whens stand round the declaration of each leaf.
pub fn depths_of(alloc: Global, part: &LeafModule) -> Result<Vec<usize>, MemoryOut>
    ensures { IfOk result (λ depths. depths.items ≡ depths_of part.now) }
{
    let mut depths = Vec::new(alloc);
    for leaf in &part.leaves {
        depths.push(leaf.depth)?;
    }
    Ok(depths)
}

/// Whether statements must drive it.
fn is_sink(role: LeafRole) -> bool
    ensures { result ≡ is_sink_role role }
{
    matches!(role, LeafRole::Sink)
}

//! The net of a design as a flat net.

ghost use Rattle.std.specs.Prelude.{◌≡◌, ℕ, IfOk};
ghost use Rattle.fir_meaning.specs.working.LeafCircuits.{LeafCircuit};
ghost use Rattle.fir_flatten.specs.working.DesignNets.{IsNetOfDesign};
ghost use Rattle.fir_flatten.specs.working.FlatDesigns.{IsFlatDesign, IsPlainDesign};

use crate::design_net::DesignNet;
use crate::flat_arrays::{few_words, flat_arrays};
use crate::flat_leaves::flat_leaves;
use crate::kept_nodes::keep_nodes;
use fir_ast::LeafId;
use fir_base::{MemoryOut, Name, Seq};
use fir_flat::roles_are_whole;
use fir_net::FlatNet;
use std::alloc::Global;

/// The flat net of a design with its net, with the circuit's name, and the words and the arrays of its state in their
/// order.
pub fn flat_design(
    alloc: Global,
    name: Name,
    design: DesignNet,
    state: Vec<LeafId>,
    array_order: Vec<usize>,
) -> Result<FlatNet, MemoryOut>
    ensures flat { IfOk result (λ flat. (c : LeafCircuit) (ports : ℕ) → IsPlainDesign c ports → IsNetOfDesign c ports design → state.items ≡ c.words → array_order.items ≡ c.array_order → IsFlatDesign c ports flat) }
    ensures named { IfOk result (λ flat. flat.name ≡ name) }
{
    roles_are_whole();
    let DesignNet {
        port_leaves,
        leaves,
        nodes,
        roles,
        arrays,
    } = design;
    let mut kept = keep_nodes(alloc, nodes, &roles)?;
    let leaves = flat_leaves(alloc, port_leaves, leaves, &roles, &mut kept)?;
    let arrays = flat_arrays(alloc, arrays, &mut kept.nodes)?;
    few_words(&arrays, &array_order)?;
    Ok(FlatNet {
        name,
        leaves: Seq::from_vec(leaves),
        nodes: Seq::from_vec(kept.nodes),
        state: Seq::from_vec(state),
        arrays: Seq::from_vec(arrays),
        array_order: Seq::from_vec(array_order),
    })
}

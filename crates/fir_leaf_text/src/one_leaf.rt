//! The path of a leaf of a module as a line prints it: the name of its declaration, and the steps to it in the type of
//! that (FIRRTL spec, "References").

ghost use Rattle.std.specs.Prelude.{◌≡◌, ◌==◌, IfOk, count_by, take};
ghost use Rattle.fir_ast.specs.working.Views.{circuit_of};
ghost use Rattle.fir_leaf_text.specs.working.TextsOfLeaves.{IsTextOf};

use crate::declared_leaf::put_declared_leaf;
use fir_base::{MemoryOut, Name};
use fir_leaf::leaves_are_declared;
use fir_leaf_circuit::{Leaf, LeafCircuit};
use std::alloc::Global;

/// The path of the leaf of that number of the module of that number; of what is not there it says nothing.
pub fn leaf_text(
    alloc: Global,
    circuit: &LeafCircuit,
    module_number: usize,
    leaf: usize,
) -> Result<Name, MemoryOut>
    ensures { IfOk result (λ text. IsTextOf (circuit_of circuit.now) module_number leaf text) }
{
    leaves_are_declared();
    let typed = circuit.fitted().typed();
    let mut text = Vec::new(alloc);
    let Some(part) = circuit.modules().get(module_number) else {
        return Ok(Name::from_vec(text));
    };
    let Some(found) = part.leaves.get(leaf) else {
        return Ok(Name::from_vec(text));
    };
    let number = leaves_before(&part.leaves, leaf, found.declaration);
    put_declared_leaf(typed, module_number, found.declaration, number, &mut text)?;
    Ok(Name::from_vec(text))
}

/// How many leaves of that declaration stand before the leaf of that number.
fn leaves_before(leaves: &[Leaf], leaf: usize, declaration: usize) -> u64
    ensures { result ≡ count_by (λ l. l.declaration == declaration) (take leaf leaves.now) }
{
    let before = leaves.iter().take(leaf);
    before.filter(|l| l.declaration == declaration).count() as u64
}

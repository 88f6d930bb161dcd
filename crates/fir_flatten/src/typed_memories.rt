//! The memories of a circuit over its ground leaves have types.

ghost use Rattle.fir_ast.specs.working.Views.{circuit_of};
ghost use Rattle.fir_flatten.specs.working.DesignParts.{AreAllMemoriesTyped};

use fir_leaf_circuit::LeafCircuit;
use fir_meaning::one_least;
use fir_memory_types::memories_are_typed;

/// What the ports of each memory read, write, and are addressed, enabled and clocked by is of the type that its arrays ask
/// for, since no fault of types or widths stands in the circuit (FIRRTL spec, "Memories").
pub fn memories_have_types(circuit: &LeafCircuit)
    ensures { AreAllMemoriesTyped (circuit_of circuit.now) }
{
    memories_are_typed();
    one_least();
    let typed = circuit.fitted().typed();
    let named = typed.named();
    let _circuit = named.circuit();
}

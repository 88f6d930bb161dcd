//! The modules of a circuit over its ground leaves have types.

ghost use Rattle.fir_ast.specs.working.Views.{circuit_of};
ghost use Rattle.fir_whens.specs.working.ModuleNets.{AreAllTyped};

use fir_leaf_circuit::LeafCircuit;
use fir_leaf_types::leafed_modules_are_typed;
use fir_meaning::one_least;

/// Each term has a type, of at most 128 bits, and what drives a leaf is of its kind, since no fault of types or widths
/// stands in the circuit (FIRRTL spec, "Expressions", "Connects").
pub fn modules_are_typed(circuit: &LeafCircuit)
    ensures { AreAllTyped (circuit_of circuit.now) }
{
    leafed_modules_are_typed();
    one_least();
    let typed = circuit.fitted().typed();
    let named = typed.named();
    let _circuit = named.circuit();
}

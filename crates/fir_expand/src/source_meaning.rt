//! What a circuit means over its ground leaves, all its modules together.

ghost use Rattle.fir_ast.specs.working.Views.{circuit_of};
ghost use Rattle.fir_design.specs.working.CircuitMeanings.{MeansTheSame};

use fir_design::circuits_mean_their_sources;
use fir_leaf_circuit::LeafCircuit;

/// Below each module of the circuit stand one design of the leaf views that `LeafCircuit::modules` gives and one
/// tree of source modules; and at every state and tick the leaf circuit of that design allows what the source
/// means by paths: the same outputs, clocks of outputs and next states (FIRRTL spec, "Circuits", "Instances").
pub fn means_its_source(circuit: &LeafCircuit)
    ensures { MeansTheSame (circuit_of circuit.now) }
{
    circuits_mean_their_sources();
    // Its scenes, its names and an order of its modules are known to stand.
    let _modules = circuit.modules();
    let named = circuit.fitted().typed().named();
    let _circuit = named.circuit();
    let _order = named.module_order();
}

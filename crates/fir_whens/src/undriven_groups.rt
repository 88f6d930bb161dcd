//! Undriven leaves of a circuit over its ground leaves, by number and by path.

ghost use Rattle.fir_ast.specs.working.Views.{circuit_of};
ghost use Rattle.fir_pass.specs.working.Groups.{SameGroup};
ghost use Rattle.fir_meaning.specs.SourceUndrivenGroup.{undriven_group};
ghost use Rattle.fir_meaning.specs.working.UndrivenGroup as numbered;

use fir_leaf_circuit::LeafCircuit;
use fir_source_faults::leaves_are_undriven_by_path;

/// It shows and tells the same over numbers as by paths, since no fault of names or types stands in it (FIRRTL spec,
/// "Initialization of Components").
pub fn undriven_by_path(circuit: &LeafCircuit)
    ensures { SameGroup (numbered.undriven_group (circuit_of circuit.now)) (undriven_group (circuit_of circuit.now)) }
{
    leaves_are_undriven_by_path();
    let typed = circuit.fitted().typed();
    let named = typed.named();
    let _circuit = named.circuit();
}

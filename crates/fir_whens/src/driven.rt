//! The leaves of a circuit that some choice leaves undriven: E24 (FIRRTL spec, "Initialization of Components").

ghost use Rattle.std.specs.Prelude.{◌≡◌, IfOk};
ghost use Rattle.fir_ast.specs.working.Views.{circuit_of};
ghost use Rattle.fir_ast.specs.working.CodeFaults.{fault_of};
ghost use Rattle.fir_pass.specs.Groups.{IsClear};
ghost use Rattle.fir_pass.specs.working.Law.{IfFault};
ghost use Rattle.fir_pass.specs.Law.{IsFirst};
ghost use Rattle.fir_meaning.specs.SourceMeaning.{circuit_meaning};
ghost use Rattle.fir_meaning.specs.SourceUndrivenGroup.{undriven_group};
ghost use Rattle.fir_whens.specs.working.ModuleFaults.{AreAllDriven};

use crate::module::undriven_leaf;
use crate::undriven_groups::undriven_by_path;
use fir_ast::FirFault;
use fir_base::Refused;
use fir_leaf_circuit::LeafCircuit;
use std::alloc::Global;

/// Ok where no choice leaves a leaf undriven that statements must drive; else the first such leaf, in the order of
/// the modules and of their leaves, with the first such choice.
pub fn check_driven(alloc: Global, circuit: &LeafCircuit) -> Result<(), Refused<FirFault>>
    ensures clear { IfOk result (λ u. IsClear (undriven_group (circuit_of circuit.now))) }
    ensures driven { IfOk result (λ u. AreAllDriven (circuit_of circuit.now)) }
    ensures fault { IfFault result (λ f. IsFirst 9 9 (circuit_meaning (circuit_of circuit.now)) (fault_of f)) }
{
    undriven_by_path(circuit);
    for module_number in 0..circuit.modules().len() {
        if let Some(fault) = undriven_leaf(alloc, circuit, module_number)? {
            return Err(Refused::Fault(fault));
        }
    }
    Ok(())
}

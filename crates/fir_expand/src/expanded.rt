//! The circuit over its ground leaves.

ghost use Rattle.std.specs.Prelude.{◌≡◌, IfOk};
ghost use Rattle.fir_ast.specs.working.Views.{circuit_of};
ghost use Rattle.fir_ast.specs.working.CodeFaults.{fault_of};
ghost use Rattle.fir_pass.specs.Groups.{IsClear};
ghost use Rattle.fir_pass.specs.working.Law.{IfFault};
ghost use Rattle.fir_pass.specs.Law.{IsFirst};
ghost use Rattle.fir_meaning.specs.CostGroup.{cost_group};
ghost use Rattle.fir_meaning.specs.SourceMeaning.{circuit_meaning};

use crate::limit::check_cost;
use fir_ast::FirFault;
use fir_base::Refused;
use fir_leaf_circuit::LeafCircuit;
use fir_leaf_table::leafed_modules;
use fir_width::Fitted;
use std::alloc::Global;

/// The circuit over its ground leaves; or, before anything grows, E23, if it costs more than the limit, and the
/// circuit as it was given.
pub fn expand(alloc: Global, fitted: Fitted) -> Result<LeafCircuit, Refused<(FirFault, Fitted)>>
    ensures tree { IfOk result (λ l. l ≡ fitted) }
    ensures clear { IfOk result (λ l. IsClear (cost_group (circuit_of fitted))) }
    ensures fault { IfFault result (λ f. IsFirst 8 8 (circuit_meaning (circuit_of fitted)) (fault_of f.0)) }
    ensures back { IfFault result (λ f. f.1 ≡ fitted) }
{
    match check_cost(alloc, &fitted) {
        Ok(()) => {
            let modules = leafed_modules(alloc, &fitted)?;
            Ok(LeafCircuit::new(fitted, modules))
        }
        Err(Refused::Fault(fault)) => Err(Refused::Fault((fault, fitted))),
        Err(Refused::Memory) => Err(Refused::Memory),
    }
}

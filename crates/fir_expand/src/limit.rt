//! The limit of costs.

ghost use Rattle.std.specs.Prelude.{IfOk};
ghost use Rattle.fir_ast.specs.working.Views.{circuit_of};
ghost use Rattle.fir_ast.specs.working.CodeFaults.{fault_of};
ghost use Rattle.fir_pass.specs.Groups.{IsClear};
ghost use Rattle.fir_pass.specs.working.Law.{IfFault};
ghost use Rattle.fir_pass.specs.Law.{IsFirst};
ghost use Rattle.fir_meaning.specs.CostGroup.{cost_group};
ghost use Rattle.fir_meaning.specs.SourceMeaning.{circuit_meaning};
ghost use Rattle.fir_expand.specs.working.Costing.{HasCostWithin};

use crate::circuit_cost::cost;
use fir_ast::FirFault;
use fir_base::Refused;
use fir_width::Fitted;
use std::alloc::Global;

/// How much a circuit may cost.
const LIMIT: u64 = 4_194_304;

/// Whether a circuit costs no more than the limit, 4194304; else its fault, E23, at the circuit's name.
pub fn check_cost(alloc: Global, fitted: &Fitted) -> Result<(), Refused<FirFault>>
    ensures within { IfOk result (λ u. HasCostWithin (circuit_of fitted.now)) }
    ensures clear { IfOk result (λ u. IsClear (cost_group (circuit_of fitted.now))) }
    ensures fault { IfFault result (λ f. IsFirst 8 8 (circuit_meaning (circuit_of fitted.now)) (fault_of f)) }
{
    let circuit = fitted.typed().named().circuit();
    let cost = cost(alloc, fitted)?;
    if cost > LIMIT {
        return Err(Refused::Fault(FirFault::Cost(circuit.ident.place, cost)));
    }
    Ok(())
}

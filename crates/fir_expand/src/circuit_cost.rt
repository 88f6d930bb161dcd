//! The cost of a circuit.

ghost use Rattle.std.specs.Prelude.{◌≡◌, IfOk};
ghost use Rattle.fir_ast.specs.working.Views.{circuit_of};
ghost use Rattle.fir_type_table.specs.working.Saturated.{saturated};
ghost use Rattle.fir_expand.specs.working.Costing.{IsCostOf};
ghost use Rattle.fir_meaning.specs.Costs.{sum_of};

use crate::module_costs::module_costs;
use crate::own_costs::own_costs;
use fir_base::MemoryOut;
use fir_width::Fitted;
use std::alloc::Global;

/// How much a circuit costs: its main module, and each other module once. Where it is more, 2^64 - 1.
pub fn cost(alloc: Global, fitted: &Fitted) -> Result<u64, MemoryOut>
    ensures { IfOk result (IsCostOf (circuit_of fitted.now)) }
{
    let named = fitted.typed().named();
    let own = own_costs(alloc, named, fitted.typed().findings())?;
    let costs = module_costs(alloc, named, own.as_slice())?;
    Ok(sum(costs.as_slice()))
}

/// Their sum; where it is more, 2^64 - 1.
fn sum(costs: &[u64]) -> u64
    ensures { result ≡ saturated (sum_of costs.now) }
{
    let mut sum: u64 = 0;
    for cost in costs {
        sum = sum.saturating_add(*cost);
    }
    sum
}

//! What the modules cost with those of their instances.

ghost use Rattle.std.specs.Prelude.{◌≡◌, IfOk, List, map, slice_get};
ghost use Rattle.fir_ast.specs.Statements.{PlacedName};
ghost use Rattle.fir_ast.specs.working.Views.{circuit_of};
ghost use Rattle.fir_meaning.specs.Components.{Declarations};
ghost use Rattle.fir_names.specs.working.Numbered.{instance_numbers, number_read};
ghost use Rattle.fir_names.specs.working.Tabulated.{Tabulates, entry_at};
ghost use Rattle.fir_type_table.specs.working.Saturated.{saturated};
ghost use Rattle.fir_meaning.specs.Costs.{sum_of};
ghost use Rattle.fir_expand.specs.working.CostsByNumber.{cost_at, cost_where};
ghost use Rattle.fir_expand.specs.working.OwnCosts.{AreCostsByNumber, own_costs};

use fir_base::MemoryOut;
use fir_names::{Component, Named, Names};
use std::alloc::Global;

/// By the modules' numbers, what each costs, from what they cost without their instances' modules. Where it is
/// more, 2^64 - 1.
pub fn module_costs(alloc: Global, named: &Named, own: &[u64]) -> Result<Vec<u64>, MemoryOut>
    requires { own.now ≡ own_costs (circuit_of named.now) }
    ensures { IfOk result (λ costs. AreCostsByNumber (circuit_of named.now) costs.items) }
{
    let modules = named.circuit().modules.as_slice();
    let mut costs = vec![in alloc; 0; modules.len()]?;
    let order = named.module_order();
    // Each module stands behind those that it has instances of, so what these cost is known by then.
    for number in order {
        let Some(names) = named.names(*number) else {
            unreachable!()
        };
        let instances = instance_costs(names, costs.as_slice());
        costs[*number] = own[*number].saturating_add(instances);
    }
    Ok(costs)
}

/// What the modules of a module's instances cost together. Where it is more, 2^64 - 1.
fn instance_costs(names: &Names, costs: &[u64]) -> u64
    ensures { (modules : List PlacedName) (ds : Declarations) → Tabulates modules names.now ds → result ≡ saturated (sum_of (map (cost_at costs.now) (instance_numbers modules ds))) }
{
    let mut sum: u64 = 0;
    for position in 0..names.len() {
        sum = sum.saturating_add(instance_cost(names, position, costs));
    }
    sum
}

/// What the module of an instance costs that is declared there; another declaration costs nothing.
fn instance_cost(names: &Names, position: usize, costs: &[u64]) -> u64
    ensures { result ≡ cost_where costs.now (number_read (entry_at names.now position)) }
{
    let Some(declaration) = names.at(position) else {
        return 0;
    };
    let Component::Instance(number) = declaration.component else {
        return 0;
    };
    match costs.get(number) {
        Some(cost) => *cost,
        None => 0,
    }
}

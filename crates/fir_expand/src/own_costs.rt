//! What the modules cost without those of their instances.

ghost use Rattle.std.specs.Prelude.{◌≡◌, ◌<◌, IfOk, Some, length, slice_get};
ghost use Rattle.fir_ast.specs.Circuits.{ModuleTree};
ghost use Rattle.fir_ast.specs.working.Views.{circuit_of};
ghost use Rattle.fir_type_table.specs.working.Saturated.{saturated};
ghost use Rattle.fir_types.specs.working.TypedModules.{IsTyped};
ghost use Rattle.fir_expand.specs.working.OwnCosts.{own_cost, own_costs};

use crate::found_leaves::{leaves_declared, leaves_of_notes};
use crate::plain_costs::plain_cost_of_block;
use fir_base::MemoryOut;
use fir_names::Named;
use fir_types::Findings;
use std::alloc::Global;

/// By the modules' numbers, what each costs without the modules of its instances. Where it is more, 2^64 - 1.
pub fn own_costs(alloc: Global, named: &Named, findings: &Findings) -> Result<Vec<u64>, MemoryOut>
    requires { IsTyped (circuit_of named.now) findings.now }
    ensures { IfOk result (λ costs. costs.items ≡ own_costs (circuit_of named.now)) }
{
    let mut costs = Vec::new(alloc);
    for number in 0..named.circuit().modules.len() {
        costs.push(own_cost(named, findings, number))?;
    }
    Ok(costs)
}

/// What the module of a number costs.
fn own_cost(named: &Named, findings: &Findings, number: usize) -> u64
    requires typed { IsTyped (circuit_of named.now) findings.now }
    requires there { number < length (circuit_of named.now).modules }
    ensures { (m : ModuleTree) → slice_get (circuit_of named.now).modules number ≡ Some m → result ≡ saturated (own_cost (circuit_of named.now).modules m) }
{
    let noted = leaves_of_notes(&findings.table, &findings.notes[number]);
    let declared = leaves_declared(&findings.table, &findings.declared[number]);
    let body = &named.circuit().modules[number].body;
    noted
        .saturating_add(declared)
        .saturating_add(plain_cost_of_block(body))
}

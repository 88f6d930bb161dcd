//! Modules that have one another as instances (E11), or an order in which each stands behind those that it
//! has instances of.

ghost use Rattle.std.specs.Prelude.{◌≡◌, ◌<◌, IfOk, Some, length, map, slice_get, slice_index, slice_index_or};
ghost use Rattle.std.specs.List.{AllByRecursion};
ghost use Rattle.fir_ast.specs.working.Views.{circuit_of, module_of};
ghost use Rattle.fir_graph.specs.working.IsCircle.{IsCircle};
ghost use Rattle.fir_ast.specs.working.CodeFaults.{fault_of};
ghost use Rattle.fir_pass.specs.Groups.{IsClear};
ghost use Rattle.fir_meaning.specs.Mentions.{module_names};
ghost use Rattle.fir_meaning.specs.NameGroups.{IsRecursive, name_group};
ghost use Rattle.fir_names.specs.working.Judged.{TabulatesEach};
ghost use Rattle.fir_names.specs.working.Ordered.{HasInstance, IsFirstInstance, OrdersModules, instances_of, name_at};

use crate::hierarchy::Hierarchy;
use fir_ast::{Circuit, FirFault, Module, Place};
use fir_base::{MemoryOut, Name, Refused, Seq};
use fir_graph::order;
use fir_names::{Component, Names};
use std::alloc::Global;

/// An order of the modules, or E11 with a closed walk, a shortest one from its first module.
pub fn module_order(
    alloc: Global,
    circuit: &Circuit,
    tables: &[Names],
) -> Result<Vec<usize>, Refused<FirFault>>
    requires tabulated { TabulatesEach (module_names (circuit_of circuit.now)) tables.now (circuit_of circuit.now).modules }
    requires names { IsClear (name_group (circuit_of circuit.now)) }
    ensures { OrdersModules (circuit_of circuit.now) result }
{
    let hierarchy = Hierarchy::new(alloc, tables)?;
    match order(alloc, &hierarchy) {
        Ok(order) => Ok(order),
        Err(Refused::Fault(circle)) => {
            let fault = recursion(alloc, circuit, tables, circle.as_slice())?;
            Err(Refused::Fault(fault))
        }
        Err(Refused::Memory) => Err(Refused::Memory),
    }
}

/// E11 of modules in a circle.
fn recursion(
    alloc: Global,
    circuit: &Circuit,
    tables: &[Names],
    circle: &[usize],
) -> Result<FirFault, MemoryOut>
    requires tabulated { TabulatesEach (module_names (circuit_of circuit.now)) tables.now (circuit_of circuit.now).modules }
    requires names { IsClear (name_group (circuit_of circuit.now)) }
    requires circle { IsCircle (instances_of (circuit_of circuit.now)) circle.now }
    ensures { IfOk result (λ f. IsRecursive (circuit_of circuit.now) (fault_of f)) }
{
    let place = first_instance(table_at(tables, circle[0]), second(circle));
    let mut walk = names_at(alloc, &circuit.modules, circle)?;
    let first = walk[0].copy(alloc)?;
    walk.push(first)?;
    Ok(FirFault::Recursive(place, Seq::from_vec(walk)))
}

/// The table of the module with that number.
fn table_at(tables: &[Names], number: usize) -> &Names
    requires { number < length tables.now }
    ensures { slice_get tables.now number ≡ Some result.now }
{
    &tables[number]
}

/// The second in a circle, which is the first where that stands alone.
fn second(circle: &[usize]) -> usize
    requires { 0 < length circle.now }
    ensures { result ≡ slice_index_or circle.now 1 (slice_index circle.now 0) }
{
    if circle.len() == 1 {
        circle[0]
    } else {
        circle[1]
    }
}

/// The names of the modules with these numbers.
fn names_at(alloc: Global, modules: &[Module], numbers: &[usize]) -> Result<Vec<Name>, MemoryOut>
    requires { AllByRecursion (λ k. k < length modules.now) numbers.now }
    ensures { IfOk result (λ names. names.items ≡ map (name_at (map module_of modules.now)) numbers.now) }
{
    let mut names = Vec::new(alloc);
    for number in numbers {
        names.push(modules[*number].ident.name.copy(alloc)?)?;
    }
    Ok(names)
}

/// Where a module names its first instance of another.
fn first_instance(table: &Names, other: usize) -> Place
    requires { HasInstance table.now other }
    ensures { IsFirstInstance table.now other result }
{
    for position in 0..table.len() {
        let Some(declaration) = table.at(position) else {
            continue;
        };
        if declaration.component == Component::Instance(other) {
            return declaration.place;
        }
    }
    unreachable!()
}

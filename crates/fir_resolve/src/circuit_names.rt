//! The names of a circuit.

ghost use Rattle.std.specs.Prelude.{◌≡◌, IfOk};
ghost use Rattle.fir_ast.specs.working.Views.{circuit_of};
ghost use Rattle.fir_ast.specs.working.CodeFaults.{fault_of};
ghost use Rattle.fir_pass.specs.working.Law.{IfFault};
ghost use Rattle.fir_pass.specs.Law.{IsFirst};
ghost use Rattle.fir_meaning.specs.working.NameGroups.{HasNames};
ghost use Rattle.fir_meaning.specs.SourceMeaning.{circuit_meaning};
ghost use Rattle.fir_names.specs.working.IsNamed.{Judges};

use crate::main_module::without_main;
use crate::modules::in_modules;
use crate::numbers::number_modules;
use crate::recursion::module_order;
use fir_ast::{Circuit, FirFault};
use fir_base::Refused;
use fir_names::{Named, Names};
use std::alloc::Global;

/// The circuit with its names, or its first fault of names, and the circuit as it was given: E08 and E09 in
/// the order of the text, then E10, then E11 with a shortest closed walk from its first module (FIRRTL spec,
/// "Circuits", "Namespaces", "Instances"). It takes time of n log n in the text.
pub fn resolve(alloc: Global, circuit: Circuit) -> Result<Named, Refused<(FirFault, Circuit)>>
    ensures tree { IfOk result (λ n. n ≡ circuit) }
    ensures named { IfOk result (λ n. HasNames (circuit_of circuit)) }
    ensures fault { IfFault result (λ f. IsFirst 1 3 (circuit_meaning (circuit_of circuit)) (fault_of f.0)) }
    ensures back { IfFault result (λ f. f.1 ≡ circuit) }
{
    match tables_of(alloc, &circuit) {
        Ok((tables, order)) => Ok(Named::new(circuit, tables, order)),
        Err(Refused::Fault(fault)) => Err(Refused::Fault((fault, circuit))),
        Err(Refused::Memory) => Err(Refused::Memory),
    }
}

/// The tables of the modules and their order, or the first fault of names.
fn tables_of(
    alloc: Global,
    circuit: &Circuit,
) -> Result<(Vec<Names>, Vec<usize>), Refused<FirFault>>
    ensures { Judges (circuit_of circuit.now) result }
{
    let numbers = number_modules(alloc, &circuit.modules)?;
    let tables = in_modules(alloc, &numbers, &circuit.modules)?;
    if let Some(fault) = without_main(alloc, &numbers, circuit)? {
        return Err(Refused::Fault(fault));
    }
    let order = module_order(alloc, circuit, &tables)?;
    Ok((tables, order))
}

//! The main module, which has the circuit's name (E10).

ghost use Rattle.std.specs.Prelude.{◌≡◌, IfOk, option_map};
ghost use Rattle.fir_ast.specs.working.Views.{circuit_of};
ghost use Rattle.fir_ast.specs.working.CodeFaults.{fault_of};
ghost use Rattle.fir_pass.specs.Groups.{first_of};
ghost use Rattle.fir_meaning.specs.Mentions.{module_names};
ghost use Rattle.fir_meaning.specs.NameGroups.{no_main_faults};
ghost use Rattle.fir_names.specs.working.Numbered.{HasNumbers};

use crate::faults::no_module;
use crate::numbers::Numbers;
use fir_ast::{Circuit, FirFault};
use fir_base::MemoryOut;
use std::alloc::Global;

/// The fault of a circuit, where no module has its name.
pub fn without_main(
    alloc: Global,
    numbers: &Numbers,
    circuit: &Circuit,
) -> Result<Option<FirFault>, MemoryOut>
    ensures { IfOk result (λ f. HasNumbers numbers.now (module_names (circuit_of circuit.now)) → option_map fault_of f ≡ first_of (no_main_faults (circuit_of circuit.now))) }
{
    let ident = &circuit.ident;
    if numbers.contains_key(&ident.name) {
        return Ok(None);
    }
    Ok(Some(no_module(alloc, ident.place, &ident.name)?))
}

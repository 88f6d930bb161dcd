//! The types of a circuit.

ghost use Rattle.std.specs.Prelude.{◌≡◌, [], IfOk};
ghost use Rattle.fir_ast.specs.working.Views.{circuit_of};
ghost use Rattle.fir_ast.specs.working.CodeFaults.{fault_of};
ghost use Rattle.fir_pass.specs.working.Law.{IfFault};
ghost use Rattle.fir_pass.specs.Law.{IsFirst};
ghost use Rattle.fir_meaning.specs.SourceMeaning.{circuit_meaning};
ghost use Rattle.fir_meaning.specs.TypeGroup.{type_faults};

use crate::modules::in_modules;
use fir_ast::FirFault;
use fir_base::Refused;
use fir_names::Named;
use fir_types::Typed;
use std::alloc::Global;

/// The circuit with its types, or its first fault of types and flows, E12 to E17 in the order of the text,
/// and the circuit as it was given (FIRRTL spec, "Types", "Flow", "Expressions", "Connects", "Registers",
/// "Memories").
pub fn check(alloc: Global, named: Named) -> Result<Typed, Refused<(FirFault, Named)>>
    ensures tree { IfOk result (λ t. t ≡ named) }
    ensures clear { IfOk result (λ t. type_faults (circuit_of named) ≡ []) }
    ensures fault { IfFault result (λ f. IsFirst 4 4 (circuit_meaning (circuit_of named)) (fault_of f.0)) }
    ensures back { IfFault result (λ f. f.1 ≡ named) }
{
    match in_modules(alloc, &named) {
        Ok(findings) => Ok(Typed::new(named, findings)),
        Err(Refused::Fault(fault)) => Err(Refused::Fault((fault, named))),
        Err(Refused::Memory) => Err(Refused::Memory),
    }
}

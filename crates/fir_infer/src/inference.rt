//! The resets and widths of a circuit.

ghost use Rattle.std.specs.Prelude.{◌≡◌, IfOk};
ghost use Rattle.fir_ast.specs.working.Views.{circuit_of};
ghost use Rattle.fir_ast.specs.working.CodeFaults.{fault_of};
ghost use Rattle.fir_pass.specs.working.Law.{IfFault};
ghost use Rattle.fir_pass.specs.Law.{IsFirst};
ghost use Rattle.fir_meaning.specs.SourceMeaning.{circuit_meaning};
ghost use Rattle.fir_meaning.specs.working.WidthGroups.{IsInferred};
ghost use Rattle.fir_reset.specs.working.Inferred.{AreInferred};

use fir_ast::FirFault;
use fir_base::Refused;
use fir_infer_resets::infer_resets;
use fir_infer_widths::solve;
use fir_reset::ResetMap;
use fir_types::Typed;
use fir_width::Fitted;
use std::alloc::Global;

/// The circuit with its resets and widths; or its first fault of them, E18, else E19, else E20 to E22 in the
/// order of the text, and the circuit as it was given (FIRRTL spec, "Reset Inference", "Width Inference").
pub fn infer(alloc: Global, typed: Typed) -> Result<Fitted, Refused<(FirFault, Typed)>>
    ensures tree { IfOk result (λ f. f ≡ typed) }
    ensures clear { IfOk result (λ f. IsInferred (circuit_of typed)) }
    ensures fault { IfFault result (λ f. IsFirst 5 7 (circuit_meaning (circuit_of typed)) (fault_of f.0)) }
    ensures back { IfFault result (λ f. f.1 ≡ typed) }
{
    match infer_resets(alloc, &typed) {
        Ok(resets) => with_widths(alloc, typed, resets),
        Err(Refused::Fault(fault)) => Err(Refused::Fault((fault, typed))),
        Err(Refused::Memory) => Err(Refused::Memory),
    }
}

/// The same of a circuit whose resets are found.
fn with_widths(
    alloc: Global,
    typed: Typed,
    resets: ResetMap,
) -> Result<Fitted, Refused<(FirFault, Typed)>>
    requires { AreInferred (circuit_of typed) resets }
    ensures tree { IfOk result (λ f. f ≡ typed) }
    ensures clear { IfOk result (λ f. IsInferred (circuit_of typed)) }
    ensures fault { IfFault result (λ f. IsFirst 5 7 (circuit_meaning (circuit_of typed)) (fault_of f.0)) }
    ensures back { IfFault result (λ f. f.1 ≡ typed) }
{
    match solve(alloc, typed, resets) {
        Ok(fitted) => Ok(fitted),
        Err(Refused::Fault((fault, typed, _resets))) => Err(Refused::Fault((fault, typed))),
        Err(Refused::Memory) => Err(Refused::Memory),
    }
}

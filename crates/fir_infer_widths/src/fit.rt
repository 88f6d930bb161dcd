//! The widths of a circuit.

ghost use Rattle.std.specs.Prelude.{◌≡◌, IfOk};
ghost use Rattle.fir_ast.specs.working.Views.{circuit_of};
ghost use Rattle.fir_ast.specs.working.CodeFaults.{fault_of};
ghost use Rattle.fir_pass.specs.working.Law.{IfFault};
ghost use Rattle.fir_pass.specs.Law.{IsFirst};
ghost use Rattle.fir_meaning.specs.SourceMeaning.{circuit_meaning};
ghost use Rattle.fir_meaning.specs.working.WidthLaws.{FitsAll};
ghost use Rattle.fir_reset.specs.working.Inferred.{AreInferred};
ghost use Rattle.fir_width.specs.working.Fitting.{JudgesWidths};

use crate::circuit::in_circuit;
use crate::legal::all_legal;
use crate::over::nothing_over;
use fir_ast::FirFault;
use fir_base::Refused;
use fir_bits::laws::monotone;
use fir_least_widths::least_widths;
use fir_reset::ResetMap;
use fir_types::Typed;
use fir_width::Fitted;
use std::alloc::Global;

/// The circuit with the widths of its leaves, and with its resets; or its first fault of widths, E19, or else
/// E20 to E22 in the order of the text, and what was given (FIRRTL spec, "Width Inference", "Primitive
/// Operations", "Literals", "Conditionals"). The map of resets is that of the circuit.
pub fn solve(
    alloc: Global,
    typed: Typed,
    resets: ResetMap,
) -> Result<Fitted, Refused<(FirFault, Typed, ResetMap)>>
    requires { AreInferred (circuit_of typed) resets }
    ensures tree { IfOk result (λ f. f ≡ typed) }
    ensures fits { IfOk result (λ f. FitsAll (circuit_of typed)) }
    ensures fault { IfFault result (λ f. IsFirst 6 7 (circuit_meaning (circuit_of typed)) (fault_of f.0)) }
    ensures back { IfFault result (λ f. (f.1 ≡ typed) × (f.2 ≡ resets)) }
{
    match widths_of(alloc, &typed) {
        Ok(widths) => Ok(Fitted::new(typed, resets, widths)),
        Err(Refused::Fault(fault)) => Err(Refused::Fault((fault, typed, resets))),
        Err(Refused::Memory) => Err(Refused::Memory),
    }
}

/// The widths of all expressions by their numbers, those of the leaves first.
fn widths_of(alloc: Global, typed: &Typed) -> Result<Vec<u32>, Refused<FirFault>>
    ensures { JudgesWidths (circuit_of typed.now) result }
{
    monotone();
    let findings = typed.findings();
    let walked = in_circuit(alloc, typed.named(), findings)?;
    let unknowns = walked.arena.len();
    let widths = least_widths(alloc, walked.arena.bounds.as_slice(), unknowns)?;
    nothing_over(
        alloc,
        &findings.table,
        widths.as_slice(),
        walked.spots.as_slice(),
    )?;
    all_legal(
        alloc,
        &findings.table,
        widths.as_slice(),
        walked.spots.as_slice(),
    )?;
    Ok(widths)
}

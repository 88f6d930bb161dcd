//! The pass of resets and widths.

ghost use Rattle.std.specs.Prelude.{◌≡◌};
ghost use Rattle.fir_ast.specs.working.CodeFaults.{fault_of};
ghost use Rattle.fir_pass.specs.Groups.{of_resets, of_widths};
ghost use Rattle.fir_meaning.specs.working.Stages.{IsClearOf, IsFirstOf};

use crate::inference::infer;
use fir_ast::FirFault;
use fir_base::Refused;
use fir_pass::Pass;
use fir_types::Typed;
use fir_width::Fitted;
use std::alloc::Global;

/// Finds resets and widths: the faults of the fifth to the seventh group, E18 to E22.
#[derive(Drop)]
pub struct Infer;

impl Pass for Infer {
    type In = Typed;

    type Out = Fitted;

    type Fault = (FirFault, Typed);

    ghost clear = { IsClearOf of_resets of_widths };

    ghost reports = { λ c f. IsFirstOf of_resets of_widths c (fault_of f.0) };

    ghost hands_back = { λ x f. f.1 ≡ x };

    fn run(&self, alloc: Global, x: Typed) -> Result<Fitted, Refused<(FirFault, Typed)>> {
        infer(alloc, x)
    }
}

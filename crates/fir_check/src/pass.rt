//! The pass of types.

ghost use Rattle.std.specs.Prelude.{◌≡◌};
ghost use Rattle.fir_ast.specs.working.CodeFaults.{fault_of};
ghost use Rattle.fir_pass.specs.Groups.{of_types};
ghost use Rattle.fir_meaning.specs.working.Stages.{IsClearOf, IsFirstOf};

use crate::circuit_types::check;
use fir_ast::FirFault;
use fir_base::Refused;
use fir_names::Named;
use fir_pass::Pass;
use fir_types::Typed;
use std::alloc::Global;

/// Finds types: the faults of the fourth group, E12 to E17.
#[derive(Drop)]
pub struct CheckTypes;

impl Pass for CheckTypes {
    type In = Named;

    type Out = Typed;

    type Fault = (FirFault, Named);

    ghost clear = { IsClearOf of_types of_types };

    ghost reports = { λ c f. IsFirstOf of_types of_types c (fault_of f.0) };

    ghost hands_back = { λ x f. f.1 ≡ x };

    fn run(&self, alloc: Global, x: Named) -> Result<Typed, Refused<(FirFault, Named)>> {
        check(alloc, x)
    }
}

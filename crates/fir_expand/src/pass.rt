//! The pass to ground leaves.

ghost use Rattle.std.specs.Prelude.{◌≡◌};
ghost use Rattle.fir_ast.specs.working.CodeFaults.{fault_of};
ghost use Rattle.fir_pass.specs.Groups.{of_cost};
ghost use Rattle.fir_meaning.specs.working.Stages.{IsClearOf, IsFirstOf};

use crate::expanded::expand;
use fir_ast::FirFault;
use fir_base::Refused;
use fir_leaf_circuit::LeafCircuit;
use fir_pass::Pass;
use fir_width::Fitted;
use std::alloc::Global;

/// Finds the ground leaves: the fault of the eighth group, E23.
#[derive(Drop)]
pub struct Expand;

impl Pass for Expand {
    type In = Fitted;

    type Out = LeafCircuit;

    type Fault = (FirFault, Fitted);

    ghost clear = { IsClearOf of_cost of_cost };

    ghost reports = { λ c f. IsFirstOf of_cost of_cost c (fault_of f.0) };

    ghost hands_back = { λ x f. f.1 ≡ x };

    fn run(&self, alloc: Global, x: Fitted) -> Result<LeafCircuit, Refused<(FirFault, Fitted)>> {
        expand(alloc, x)
    }
}

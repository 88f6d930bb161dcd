//! The pass of names.

ghost use Rattle.std.specs.Prelude.{◌≡◌};
ghost use Rattle.fir_ast.specs.working.CodeFaults.{fault_of};
ghost use Rattle.fir_pass.specs.Groups.{of_hierarchy, of_names};
ghost use Rattle.fir_meaning.specs.working.Stages.{IsClearOf, IsFirstOf};

use crate::circuit_names::resolve;
use fir_ast::{Circuit, FirFault};
use fir_base::Refused;
use fir_names::Named;
use fir_pass::{Meant, Pass};
use std::alloc::Global;

/// The tree of a text.
#[derive(Drop)]
pub struct Parsed {
    pub circuit: Circuit,
}

impl Meant for Parsed {
    ghost use Rattle.fir_meaning.specs.working.Stages.{IsTreeOf};

    ghost is_of = { λ c p. IsTreeOf c p.circuit };
}

/// Resolves names: the faults of the first three groups, E08 to E11.
#[derive(Drop)]
pub struct Resolve;

impl Pass for Resolve {
    type In = Parsed;

    type Out = Named;

    type Fault = (FirFault, Circuit);

    ghost clear = { IsClearOf of_names of_hierarchy };

    ghost reports = { λ c f. IsFirstOf of_names of_hierarchy c (fault_of f.0) };

    ghost hands_back = { λ x f. f.1 ≡ x.circuit };

    fn run(&self, alloc: Global, x: Parsed) -> Result<Named, Refused<(FirFault, Circuit)>> {
        resolve(alloc, x.circuit)
    }
}

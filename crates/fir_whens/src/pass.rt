//! The pass to nets.

ghost use Rattle.std.specs.Prelude.{◌≡◌};
ghost use Rattle.fir_ast.specs.working.CodeFaults.{fault_of};
ghost use Rattle.fir_pass.specs.Groups.{of_drivers};
ghost use Rattle.fir_meaning.specs.working.Stages.{IsClearOf, IsFirstOf};

use crate::lowered::lower_whens;
use crate::net_circuit::NetCircuit;
use fir_ast::FirFault;
use fir_base::Refused;
use fir_leaf_circuit::LeafCircuit;
use fir_pass::{Meant, Pass};
use std::alloc::Global;

impl Meant for NetCircuit {
    ghost use Rattle.fir_meaning.specs.working.Stages.{IsTreeOf};

    ghost is_of = { IsTreeOf };
}

/// Puts nets in the place of statements: the fault of the ninth group, E24.
#[derive(Drop)]
pub struct LowerWhens;

impl Pass for LowerWhens {
    type In = LeafCircuit;

    type Out = NetCircuit;

    type Fault = (FirFault, LeafCircuit);

    ghost clear = { IsClearOf of_drivers of_drivers };

    ghost reports = { λ c f. IsFirstOf of_drivers of_drivers c (fault_of f.0) };

    ghost hands_back = { λ x f. f.1 ≡ x };

    fn run(
        &self,
        alloc: Global,
        x: LeafCircuit,
    ) -> Result<NetCircuit, Refused<(FirFault, LeafCircuit)>> {
        lower_whens(alloc, x)
    }
}

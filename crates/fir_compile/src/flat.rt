//! The flat net of a circuit, and the pass to it.

ghost use Rattle.std.specs.Prelude.{◌≡◌};
ghost use Rattle.fir_ast.specs.working.CodeFaults.{fault_of};
ghost use Rattle.fir_pass.specs.Groups.{of_clocks, of_inits};
ghost use Rattle.fir_meaning.specs.working.Stages.{IsClearOf, IsFirstOf};
ghost use Rattle.fir_net.specs.working.IsNet.{IsNet};

use fir_ast::FirFault;
use fir_base::Refused;
use fir_flatten::flatten;
use fir_net::FlatNet;
use fir_pass::{Meant, Pass};
use fir_whens::NetCircuit;
use std::alloc::Global;
use std::marker::Model;

/// A flat net that is whole. Contracts see the net.
#[derive(Drop)]
pub struct WholeNet {
    net: FlatNet,
}

impl Model for WholeNet {
    ghost use Rattle.fir_net.specs.declared.net.FlatNet as flat;
    ghost use Rattle.fir_net.specs.contracts.net.FlatNet as contract;

    ghost Value = { flat.FlatNet };

    ghost coded = { contract.the_row.coded };

    ghost use Rattle.fir_net.specs.working.IsNet.{IsNet};

    ghost view = { λ w. w.net };

    ghost invariant = { λ w. IsNet w.net };
}

impl Meant for WholeNet {
    ghost use Rattle.fir_flatten.specs.working.FlattensTo.{IsFlatNetOf};

    ghost is_of = { IsFlatNetOf };
}

impl WholeNet {
    fn new(net: FlatNet) -> WholeNet
        requires { IsNet net }
        ensures { result ≡ net }
    {
        WholeNet { net }
    }

    pub fn net(&self) -> &FlatNet
        ensures value { result.now ≡ self.now }
        ensures whole { IsNet self.now }
    {
        &self.net
    }

    pub fn into_net(self) -> FlatNet
        ensures { result ≡ self }
    {
        self.net
    }
}

/// Flattens the nets of modules into one: the faults of the tenth to twelfth groups, E25 to E27.
#[derive(Drop)]
pub struct Flatten;

impl Pass for Flatten {
    type In = NetCircuit;

    type Out = WholeNet;

    type Fault = (FirFault, NetCircuit);

    ghost clear = { IsClearOf of_clocks of_inits };

    ghost reports = { λ c f. IsFirstOf of_clocks of_inits c (fault_of f.0) };

    ghost hands_back = { λ x f. f.1 ≡ x };

    fn run(
        &self,
        alloc: Global,
        x: NetCircuit,
    ) -> Result<WholeNet, Refused<(FirFault, NetCircuit)>> {
        match flatten(alloc, x) {
            Ok(net) => Ok(WholeNet::new(net)),
            Err(refused) => Err(refused),
        }
    }
}

//! From a circuit over its leaves to the nets of its modules.

ghost use Rattle.std.specs.Prelude.{◌≡◌, IfOk};
ghost use Rattle.fir_ast.specs.working.Views.{circuit_of};
ghost use Rattle.fir_ast.specs.working.CodeFaults.{fault_of};
ghost use Rattle.fir_pass.specs.Groups.{IsClear};
ghost use Rattle.fir_pass.specs.working.Law.{IfFault};
ghost use Rattle.fir_pass.specs.Law.{IsFirst};
ghost use Rattle.fir_meaning.specs.SourceMeaning.{circuit_meaning};
ghost use Rattle.fir_meaning.specs.SourceUndrivenGroup.{undriven_group};
ghost use Rattle.fir_whens.specs.working.ModuleFaults.{AreAllDriven};
ghost use Rattle.fir_whens.specs.working.NetCircuits.{AreNets};

use crate::driven::check_driven;
use crate::module_net::{ModuleNet, module_net};
use crate::net_circuit::NetCircuit;
use crate::typed_modules::modules_are_typed;
use fir_ast::FirFault;
use fir_base::{MemoryOut, Refused};
use fir_leaf_circuit::LeafCircuit;
use std::alloc::Global;

/// The circuit with the nets of its modules; or E24, the first leaf that some choice leaves undriven, and the circuit
/// as it was given.
pub fn lower_whens(
    alloc: Global,
    circuit: LeafCircuit,
) -> Result<NetCircuit, Refused<(FirFault, LeafCircuit)>>
    ensures tree { IfOk result (λ n. n ≡ circuit) }
    ensures clear { IfOk result (λ n. IsClear (undriven_group (circuit_of circuit))) }
    ensures fault { IfFault result (λ f. IsFirst 9 9 (circuit_meaning (circuit_of circuit)) (fault_of f.0)) }
    ensures back { IfFault result (λ f. f.1 ≡ circuit) }
{
    match driven_nets(alloc, &circuit) {
        Ok(nets) => Ok(NetCircuit::new(circuit, nets)),
        Err(Refused::Fault(fault)) => Err(Refused::Fault((fault, circuit))),
        Err(Refused::Memory) => Err(Refused::Memory),
    }
}

/// The nets of the modules, by their numbers, where no choice leaves a leaf undriven.
fn driven_nets(alloc: Global, circuit: &LeafCircuit) -> Result<Vec<ModuleNet>, Refused<FirFault>>
    ensures clear { IfOk result (λ nets. IsClear (undriven_group (circuit_of circuit.now))) }
    ensures driven { IfOk result (λ nets. AreAllDriven (circuit_of circuit.now)) }
    ensures nets { IfOk result (λ nets. AreNets (circuit_of circuit.now) nets.items) }
    ensures fault { IfFault result (λ f. IsFirst 9 9 (circuit_meaning (circuit_of circuit.now)) (fault_of f)) }
{
    check_driven(alloc, circuit)?;
    let nets = module_nets(alloc, circuit)?;
    Ok(nets)
}

/// The nets of the modules, by their numbers.
fn module_nets(alloc: Global, circuit: &LeafCircuit) -> Result<Vec<ModuleNet>, MemoryOut>
    ensures { IfOk result (λ nets. AreNets (circuit_of circuit.now) nets.items) }
{
    modules_are_typed(circuit);
    let mut nets = Vec::new(alloc);
    for part in circuit.modules() {
        nets.push(module_net(alloc, part)?)?;
    }
    Ok(nets)
}

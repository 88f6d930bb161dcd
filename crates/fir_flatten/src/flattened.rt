//! From a circuit with the nets of its modules to its flat net.

ghost use Rattle.std.specs.Prelude.{◌≡◌, IfOk};
ghost use Rattle.fir_ast.specs.working.Views.{circuit_of};
ghost use Rattle.fir_ast.specs.working.CodeFaults.{fault_of};
ghost use Rattle.fir_pass.specs.working.Law.{IfFault};
ghost use Rattle.fir_flatten.specs.working.FlattensTo.{IsFlatNetOf};
ghost use Rattle.fir_flatten.specs.working.FlatFaults.{ShowsNone, TellsFirst};

use crate::clock_faults::clock_fault;
use crate::design_net::design_net;
use crate::design_parts::{DesignParts, design_parts};
use crate::flat_design::flat_design;
use crate::laws::{designs_flatten, designs_tell_inits};
use crate::one_clocks::designs_have_one_clocks;
use crate::plain_laws::designs_are_plain;
use crate::told_laws::first_is_told;
use crate::typed_memories::memories_have_types;
use fir_ast::FirFault;
use fir_base::Refused;
use fir_copies::{copies_give_all, copies_stand};
use fir_design::has_one_tree;
use fir_design_faults::clock_faults_stand_by_path;
use fir_inits::init_fault;
use fir_memory_clocks::memory_clock_fault;
use fir_net::FlatNet;
use fir_whens::NetCircuit;
use std::alloc::Global;

/// The flat net of a circuit. It allows at every tick what the circuit's source allows, with its names, and has as many
/// leaves, registers and memories (FIRRTL spec, "Circuits", "Instances"); or else E25, the first fault of its clocks, or else E26, the first of the clocks of its
/// memories, or else E27, of an asynchronous reset whose init is no constant, and the circuit as it was given.
pub fn flatten(
    alloc: Global,
    circuit: NetCircuit,
) -> Result<FlatNet, Refused<(FirFault, NetCircuit)>>
    ensures flat { IfOk result (IsFlatNetOf (circuit_of circuit)) }
    ensures clear { IfOk result (λ n. ShowsNone (circuit_of circuit)) }
    ensures told { IfFault result (λ f. TellsFirst (circuit_of circuit) (fault_of f.0)) }
    ensures back { IfFault result (λ f. f.1 ≡ circuit) }
{
    match flat_net(alloc, &circuit) {
        Ok(net) => Ok(net),
        Err(Refused::Fault(fault)) => Err(Refused::Fault((fault, circuit))),
        Err(Refused::Memory) => Err(Refused::Memory),
    }
}

/// The flat net, or the first fault.
fn flat_net(alloc: Global, circuit: &NetCircuit) -> Result<FlatNet, Refused<FirFault>>
    ensures flat { IfOk result (IsFlatNetOf (circuit_of circuit.now)) }
    ensures clear { IfOk result (λ n. ShowsNone (circuit_of circuit.now)) }
    ensures told { IfFault result (λ f. TellsFirst (circuit_of circuit.now) (fault_of f)) }
{
    has_one_tree();
    copies_stand();
    copies_give_all();
    clock_faults_stand_by_path();
    first_is_told();
    designs_are_plain();
    designs_have_one_clocks();
    designs_flatten();
    designs_tell_inits();
    memories_have_types(circuit.leafed());
    let DesignParts {
        names,
        modules,
        elaborated,
    } = design_parts(alloc, circuit)?;
    if let Some(fault) = clock_fault(alloc, &modules, &names, &elaborated.copies)? {
        return Err(Refused::Fault(fault));
    }
    if let Some(fault) = memory_clock_fault(alloc, circuit, &names, &elaborated.copies)? {
        return Err(Refused::Fault(fault));
    }
    let design = design_net(alloc, &modules, &elaborated.copies)?;
    let tree = circuit.leafed().fitted().typed().named().circuit();
    let name = tree.ident.name.copy(alloc)?;
    let net = flat_design(
        alloc,
        name,
        design,
        elaborated.state,
        elaborated.array_order,
    )?;
    match init_fault(alloc, &net)? {
        Some(fault) => Err(Refused::Fault(fault)),
        None => Ok(net),
    }
}

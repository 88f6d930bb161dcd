//! The resets of a circuit.

ghost use Rattle.std.specs.Prelude.{◌≡◌, [], IfOk};
ghost use Rattle.fir_ast.specs.working.Views.{circuit_of};
ghost use Rattle.fir_ast.specs.working.CodeFaults.{fault_of};
ghost use Rattle.fir_pass.specs.working.Law.{IfFault};
ghost use Rattle.fir_meaning.specs.working.NameGroups.{HasNames};
ghost use Rattle.fir_meaning.specs.ResetWalks.{ShowsResets};
ghost use Rattle.fir_meaning.specs.TypeGroup.{type_faults};
ghost use Rattle.fir_types.specs.working.TypedModules.{IsTyped};
ghost use Rattle.fir_reset.specs.working.Inferred.{AreInferred};
ghost use Rattle.fir_infer_resets.specs.working.WholeGraphs.{IsWhole};

use crate::build::joined_of;
use crate::direct::without_detours;
use crate::joined::Joined;
use crate::marked::map_of;
use crate::search::find_resets;
use crate::told::told;
use fir_ast::FirFault;
use fir_base::Refused;
use fir_names::Named;
use fir_reset::ResetMap;
use fir_types::{Findings, Typed};
use std::alloc::Global;

/// Which Resets of a circuit are asynchronous; or E18, with a walk that joins a UInt and an AsyncReset (FIRRTL
/// spec, "Reset Inference").
pub fn infer_resets(alloc: Global, typed: &Typed) -> Result<ResetMap, Refused<FirFault>>
    ensures resets { IfOk result (AreInferred (circuit_of typed.now)) }
    ensures fault { IfFault result (λ f. ShowsResets (circuit_of typed.now) (fault_of f)) }
{
    let named = typed.named();
    let findings = typed.findings();
    // Its names are known to be resolved.
    let _circuit = named.circuit();
    let joined = joined_of(alloc, named, findings)?;
    found_in(alloc, named, findings, &joined)
}

/// What the search in the graph of all that is joined finds.
fn found_in(
    alloc: Global,
    named: &Named,
    findings: &Findings,
    joined: &Joined,
) -> Result<ResetMap, Refused<FirFault>>
    requires names { HasNames (circuit_of named.now) }
    requires types { type_faults (circuit_of named.now) ≡ [] }
    requires typed { IsTyped (circuit_of named.now) findings.now }
    requires whole { IsWhole (circuit_of named.now) joined.now }
    ensures resets { IfOk result (AreInferred (circuit_of named.now)) }
    ensures fault { IfFault result (λ f. ShowsResets (circuit_of named.now) (fault_of f)) }
{
    match find_resets(alloc, &joined.graph, &joined.kinds) {
        Ok(marks) => Ok(map_of(alloc, named, findings, &joined.ends, &marks)?),
        Err(Refused::Fault(walk)) => {
            let nodes = without_detours(alloc, &joined.ends, &walk.nodes)?;
            Err(Refused::Fault(told(alloc, &joined.ends, &nodes)?))
        }
        Err(Refused::Memory) => Err(Refused::Memory),
    }
}

//! What is known of each module of a circuit.

ghost use Rattle.std.specs.Prelude.{◌≡◌, ℕ, IfOk, List, Some, map, slice_get};
ghost use Rattle.fir_ast.specs.working.Views.{circuit_of};
ghost use Rattle.fir_meaning.specs.ModuleScenes.{Scene};
ghost use Rattle.fir_meaning.specs.Scenes.{IsSceneOf};
ghost use Rattle.fir_meaning.specs.working.LeafedModules.{leafed_module};
ghost use Rattle.fir_leaf_circuit.specs.working.Seen.{HasView};
ghost use Rattle.fir_leaf_text.specs.working.DeclaredNames.{names_in_module};
ghost use Rattle.fir_whens.specs.working.ModuleNets.{IsNetOf};
ghost use Rattle.fir_flatten.specs.working.CircuitParts.{HasParts, names_by_modules};
ghost use Rattle.fir_flatten.specs.working.DesignNets.{IsPartOf};

use crate::design_net::ModulePart;
use fir_ast::Circuit;
use fir_base::{MemoryOut, Name};
use fir_driven::driven_leaves;
use fir_leaf_circuit::{LeafCircuit, LeafModule};
use fir_leaf_text::{array_texts, declared_names, leaf_texts};
use fir_whens::{ModuleNet, NetCircuit};
use std::alloc::Global;

/// The names of what each module declares, by the numbers of the modules.
pub fn declared_by_modules(alloc: Global, circuit: &Circuit) -> Result<Vec<Vec<Name>>, MemoryOut>
    ensures { IfOk result (λ names. map (λ ns. ns.items) names.items ≡ names_by_modules (circuit_of circuit.now)) }
{
    let mut names = Vec::new(alloc);
    for part in circuit.modules.as_slice() {
        names.push(declared_names(alloc, part)?)?;
    }
    Ok(names)
}

/// Each module with its net, by their numbers. The names are those of what each declares.
pub fn module_parts<'a>(
    alloc: Global,
    circuit: &'a NetCircuit,
    names: &[Vec<Name>],
) -> Result<Vec<ModulePart<'a>>, MemoryOut>
    requires { map (λ ns. ns.items) names.now ≡ names_by_modules (circuit_of circuit.now) }
    ensures { IfOk result (λ parts. HasParts (circuit_of circuit.now) parts.items) }
{
    let leafed = circuit.leafed();
    let nets = circuit.nets();
    let mut parts = Vec::new(alloc);
    for (number, part) in leafed.modules().iter().enumerate() {
        let declared = &names[number];
        let net = &nets[number];
        parts.push(module_part(alloc, leafed, number, part, net, declared)?)?;
    }
    Ok(parts)
}

/// The module of a number with its net, where it declares these names.
fn module_part<'a>(
    alloc: Global,
    circuit: &LeafCircuit,
    number: usize,
    part: &'a LeafModule,
    net: &'a ModuleNet,
    names: &[Name],
) -> Result<ModulePart<'a>, MemoryOut>
    requires view { (s : Scene) → IsSceneOf (circuit_of circuit.now) number s → HasView part.now (leafed_module s) }
    requires net { (s : Scene) → IsSceneOf (circuit_of circuit.now) number s → IsNetOf (leafed_module s) net.now }
    requires names { (s : Scene) → IsSceneOf (circuit_of circuit.now) number s → names.now ≡ names_in_module s.own.inside }
    ensures { IfOk result (λ p. (s : Scene) → IsSceneOf (circuit_of circuit.now) number s → IsPartOf (leafed_module s) p) }
{
    let named = circuit.fitted().typed().named();
    // Its names are known to stand, and each node reads those before it.
    let _circuit = named.circuit();
    let _nodes = net.nodes.as_slice();
    Ok(ModulePart {
        part,
        net,
        texts: leaf_texts(alloc, circuit, number, names)?,
        driven: driven_leaves(alloc, part.leaves.len(), &part.nodes, &part.body)?,
        array_texts: array_texts(alloc, circuit, number)?,
    })
}

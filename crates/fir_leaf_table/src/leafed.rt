//! The modules of a circuit over their ground leaves.

ghost use Rattle.std.specs.Prelude.{◌≡◌, ◌≤◌, ℕ, IfOk, Some, slice_get};
ghost use Rattle.fir_ast.specs.working.Views.{circuit_of, module_of};
ghost use Rattle.fir_meaning.specs.CostGroup.{cost_limit};
ghost use Rattle.fir_meaning.specs.Costs.{HasCost};
ghost use Rattle.fir_meaning.specs.working.NameGroups.{HasNames};
ghost use Rattle.fir_meaning.specs.ModuleScenes.{Scene};
ghost use Rattle.fir_meaning.specs.working.LeafedModules.{leafed_module};
ghost use Rattle.fir_leaf_circuit.specs.working.Leafed.{AreLeafed};
ghost use Rattle.fir_leaf_table.specs.working.ModulePlaces.{ArePlacesOf};
ghost use Rattle.fir_leaf_table.specs.working.ModuleWalks.{IsWithinLimit};
ghost use Rattle.fir_meaning.specs.Scenes.{IsSceneOf};
ghost use Rattle.fir_leaf_circuit.specs.working.Seen.{HasView};

use crate::ground_body::ground_body;
use crate::module_frame::frame_of;
use crate::port_places::all_port_places;
use crate::ports::in_ports;
use crate::statements::in_block;
use crate::walk::Walk;
use fir_ast::{Module, Place};
use fir_base::MemoryOut;
use fir_leaf_circuit::LeafModule;
use fir_width::Fitted;
use std::alloc::Global;

/// The modules of a circuit that costs no more than the limit, by their numbers.
pub fn leafed_modules(alloc: Global, fitted: &Fitted) -> Result<Vec<LeafModule>, MemoryOut>
    ensures { IfOk result (λ modules. (cost : ℕ) → HasCost (circuit_of fitted.now) cost → cost ≤ cost_limit → AreLeafed (circuit_of fitted.now) modules.items) }
{
    let named = fitted.typed().named();
    let circuit = named.circuit();
    let port_places = all_port_places(alloc, fitted)?;
    let mut modules = Vec::new(alloc);
    for (number, part) in circuit.modules.iter().enumerate() {
        modules.push(numbered_module(alloc, fitted, &port_places, number, part)?)?;
    }
    Ok(modules)
}

/// The module of a number, where the leaves of all ports stand at these places.
fn numbered_module(
    alloc: Global,
    fitted: &Fitted,
    port_places: &[Vec<Place>],
    number: usize,
    part: &Module,
) -> Result<LeafModule, MemoryOut>
    requires names { HasNames (circuit_of fitted.now) }
    requires places { ArePlacesOf (circuit_of fitted.now).modules port_places.now }
    requires there { slice_get (circuit_of fitted.now).modules number ≡ Some (module_of part.now) }
    ensures { IfOk result (λ m. (s : Scene) → IsSceneOf (circuit_of fitted.now) number s → IsWithinLimit (circuit_of fitted.now).modules s.own.inside → HasView m (leafed_module s)) }
{
    let frame = frame_of(fitted, port_places, number);
    let ground = ground_body(alloc, &frame, part)?;
    let mut walk = Walk {
        declared: 0,
        drivers: ground.drivers.as_slice(),
        no_node: ground.nodes.len(),
        leaves: Vec::new(alloc),
        arrays: Vec::new(alloc),
        memories: Vec::new(alloc),
    };
    in_ports(part.ports.as_slice(), alloc, &frame, &mut walk)?;
    let port_leaves = walk.leaves.len();
    in_block(part.body.as_slice(), alloc, &frame, 0, &mut walk)?;
    Ok(LeafModule {
        port_leaves,
        leaves: walk.leaves,
        arrays: walk.arrays,
        memories: walk.memories,
        nodes: ground.nodes,
        body: ground.body,
    })
}

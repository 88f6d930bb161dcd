//! What the flat net of a circuit is made of: its modules with their nets, and where these stand in its design.

ghost use Rattle.std.specs.Prelude.{◌≡◌, IfOk};
ghost use Rattle.fir_ast.specs.working.Views.{circuit_of};
ghost use Rattle.fir_flatten.specs.working.DesignParts.{AreDesignParts};

use crate::design_net::ModulePart;
use crate::main_number::main_number;
use crate::module_parts::{declared_by_modules, module_parts};
use fir_base::{MemoryOut, Name};
use fir_design::has_sound_designs;
use fir_elaborate::{Elaborated, elaborate, modules_are_ordered};
use fir_whens::{NetCircuit, modules_are_typed};
use std::alloc::Global;

/// By the numbers of the modules the names of what each declares, and the modules with their nets; and the copies of the
/// modules in the design.
#[derive(Drop)]
pub struct DesignParts<'a> {
    pub names: Vec<Vec<Name>>,
    pub modules: Vec<ModulePart<'a>>,
    pub elaborated: Elaborated,
}

/// Those of a circuit (FIRRTL spec, "Circuits", "Modules", "Instances").
pub fn design_parts(alloc: Global, circuit: &NetCircuit) -> Result<DesignParts<'_>, MemoryOut>
    ensures { IfOk result (AreDesignParts (circuit_of circuit.now)) }
{
    has_sound_designs();
    modules_are_ordered();
    let leafed = circuit.leafed();
    modules_are_typed(leafed);
    let named = leafed.fitted().typed().named();
    let _order = named.module_order();
    let tree = named.circuit();
    let leafed_modules = leafed.modules();
    let Some(main) = main_number(tree) else {
        unreachable!()
    };
    let names = declared_by_modules(alloc, tree)?;
    let modules = module_parts(alloc, circuit, &names)?;
    let elaborated = elaborate(alloc, leafed_modules, &names, main)?;
    Ok(DesignParts {
        names,
        modules,
        elaborated,
    })
}

//! The types in a module: of its ports, and then of its statements.

ghost use Rattle.std.specs.Prelude.{◌≡◌, List, IfOk, map};
ghost use Rattle.fir_ast.specs.Circuits.{ModuleTree};
ghost use Rattle.fir_ast.specs.working.Views.{module_of, port_of};
ghost use Rattle.fir_meaning.specs.Visibility.{declarations};
ghost use Rattle.fir_type_table.specs.working.Tables.{types_of};
ghost use Rattle.fir_types.specs.working.Walked.{HoldsBundles, IsOfModule, PassesPorts};
ghost use Rattle.fir_types.specs.working.TypedModules.{JudgesModule};

use crate::statements::in_block;
use fir_ast::{FirFault, Module, Port};
use fir_base::{MemoryOut, Refused};
use fir_names::Names;
use fir_type_table::{TypeId, TypeTable};
use fir_types::{Note, Scope};
use std::alloc::Global;

/// The types of what a module declares, with the table, and what is found of its expressions; or its first
/// fault of types.
pub fn in_module(
    alloc: Global,
    names: &Names,
    bundles: &[TypeId],
    part: &Module,
    table: TypeTable,
) -> Result<(Scope, Vec<Note>), Refused<FirFault>>
    ensures { (modules : List ModuleTree) → IsOfModule modules names.now (declarations (module_of part.now)) → HoldsBundles (types_of table) bundles.now modules → JudgesModule modules bundles.now (types_of table) (module_of part.now) result }
{
    let mut scope = Scope {
        table,
        declared: Vec::new(alloc),
    };
    declare_ports(alloc, &mut scope, &part.ports)?;
    let mut notes = Vec::new(alloc);
    in_block(&part.body, alloc, names, bundles, &mut scope, &mut notes)?;
    Ok((scope, notes))
}

/// Declares ports.
fn declare_ports(alloc: Global, scope: &mut Scope, ports: &[Port]) -> Result<(), MemoryOut>
    ensures { IfOk result (λ _. PassesPorts scope.old scope.new (map port_of ports.now)) }
{
    for port in ports {
        scope.declare(alloc, &port.ty)?;
    }
    Ok(())
}

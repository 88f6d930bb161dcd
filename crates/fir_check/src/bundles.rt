//! The bundles that the instances of each module have (FIRRTL spec, "Instances").

ghost use Rattle.std.specs.Prelude.{◌≡◌, IfOk, map};
ghost use Rattle.fir_ast.specs.Types.{bundle};
ghost use Rattle.fir_ast.specs.working.Views.{module_of, port_of};
ghost use Rattle.fir_meaning.specs.ComponentTypes.{is_input, port_fields};
ghost use Rattle.fir_type_table.specs.working.Tables.{Adds, types_of};
ghost use Rattle.fir_types.specs.working.Walked.{HoldsBundles};

use fir_ast::{Module, Port};
use fir_base::{Direction, MemoryOut};
use fir_type_table::{Part, TypeId, TypeTable};
use std::alloc::Global;

/// The bundle of each module's ports, inputs flipped, by the modules' numbers.
pub fn add_bundles(
    alloc: Global,
    table: &mut TypeTable,
    modules: &[Module],
) -> Result<Vec<TypeId>, MemoryOut>
    ensures { IfOk result (λ ids. HoldsBundles (types_of table.new) ids.items (map module_of modules.now)) }
{
    let mut bundles = Vec::new(alloc);
    for part in modules {
        bundles.push(add_ports(alloc, table, &part.ports)?)?;
    }
    Ok(bundles)
}

fn add_ports(alloc: Global, table: &mut TypeTable, ports: &[Port]) -> Result<TypeId, MemoryOut>
    ensures { IfOk result (λ id. Adds table.old table.new id.number (bundle (port_fields (map port_of ports.now)))) }
{
    let mut parts = Vec::new(alloc);
    for port in ports {
        parts.push(Part {
            place: port.ident.place,
            flip: is_input(port.direction),
            name: port.ident.name.copy(alloc)?,
            type_place: port.type_place,
            ty: table.add(alloc, &port.ty)?,
        })?;
    }
    table.add_bundle(alloc, parts)
}

/// The ports of that direction are flipped in the bundle.
fn is_input(direction: Direction) -> bool
    ensures { result ≡ is_input direction }
{
    match direction {
        Direction::Input => true,
        Direction::Output => false,
    }
}

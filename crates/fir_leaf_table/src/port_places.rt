//! Where the leaves of modules' ports stand, and so those of instances.

ghost use Rattle.std.specs.Prelude.{◌≡◌, ◌++◌, Some, IfOk, OnOk, map, replicate};
ghost use Rattle.fir_ast.specs.working.Views.{circuit_of, port_of};
ghost use Rattle.fir_meaning.specs.Costs.{leaves_where};
ghost use Rattle.fir_type_table.specs.working.Saturated.{saturated};
ghost use Rattle.fir_type_table.specs.working.Tables.{types_of};
ghost use Rattle.fir_types.specs.working.Seen.{seen};
ghost use Rattle.fir_leaf_table.specs.working.ModulePlaces.{ArePlacesOf, places_of};
ghost use Rattle.fir_leaf_table.specs.working.PortPlaces.{ArePortPlaces, HaveTypes, IsModuleNumber};

use crate::frame::Frame;
use fir_ast::{Place, Port};
use fir_base::MemoryOut;
use fir_names::Component;
use fir_type_table::TypeTable;
use fir_types::Found;
use fir_types::found::leaves;
use fir_width::Fitted;
use std::alloc::Global;

/// Of each module, by its number, where each leaf of its ports stands.
pub fn all_port_places(alloc: Global, fitted: &Fitted) -> Result<Vec<Vec<Place>>, MemoryOut>
    ensures { IfOk result (λ all. ArePlacesOf (circuit_of fitted.now).modules all.items) }
{
    let typed = fitted.typed();
    let findings = typed.findings();
    let mut all = Vec::new(alloc);
    for (number, part) in typed.named().circuit().modules.iter().enumerate() {
        let declared = findings.declared[number].as_slice();
        all.push(places(alloc, &findings.table, &part.ports, declared)?)?;
    }
    Ok(all)
}

/// Of each leaf of the instance before which so many are declared, where the port that it is one of stands.
pub fn port_places<'a>(frame: &Frame<'a>, position: usize) -> &'a [Place]
    ensures { ArePortPlaces frame.now position result.now }
{
    let Some(number) = module_number(frame, position) else {
        return &[];
    };
    match frame.port_places.get(number) {
        Some(places) => places,
        None => &[],
    }
}

/// The number of the module of the instance before which so many are declared.
fn module_number(frame: &Frame, position: usize) -> Option<usize>
    ensures { IsModuleNumber frame.now position result }
{
    let Component::Instance(number) = frame.names.at(position)?.component else {
        return None;
    };
    Some(number)
}

/// Of each leaf of these ports, whose types stand in front, where its port does.
fn places(
    alloc: Global,
    table: &TypeTable,
    ports: &[Port],
    declared: &[Option<Found>],
) -> Result<Vec<Place>, MemoryOut>
    ensures { IfOk result (λ places. HaveTypes (types_of table.now) (map port_of ports.now) declared.now → places.items ≡ places_of (map port_of ports.now)) }
{
    let mut places = Vec::new(alloc);
    for (port, found) in ports.iter().zip(declared) {
        push_place(
            &mut places,
            port.ident.place,
            leaves_of_found(table, *found),
        )?;
    }
    Ok(places)
}

/// A place, so many times.
fn push_place(places: &mut Vec<Place>, place: Place, count: u64) -> Result<(), MemoryOut>
    ensures { OnOk result (places.new.items ≡ places.old.items ++ replicate count place) }
{
    for _leaf in 0..count {
        places.push(place)?;
    }
    Ok(())
}

/// The leaves of what is declared, none where it has no type; at most 2^64 - 1.
fn leaves_of_found(table: &TypeTable, found: Option<Found>) -> u64
    ensures { result ≡ saturated (leaves_where (seen (types_of table.now) found)) }
{
    match found {
        Some(found) => leaves(table, found),
        None => 0,
    }
}

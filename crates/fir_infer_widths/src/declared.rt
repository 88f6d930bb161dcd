//! The numbers of the leaves that are declared: the ports of all modules first, in the order of the text,
//! and then what the bodies declare.

ghost use Rattle.std.specs.Prelude.{◌≡◌, [], IfOk, OnOk, map};
ghost use Rattle.fir_ast.specs.working.Views.{circuit_of};
ghost use Rattle.fir_meaning.specs.working.NameGroups.{HasNames};
ghost use Rattle.fir_type_table.specs.working.Tables.{types_of};
ghost use Rattle.fir_types.specs.working.FirstLeaves.{component_at};
ghost use Rattle.fir_types.specs.working.Seen.{seen};
ghost use Rattle.fir_types.specs.working.TypedModules.{IsTyped};
ghost use Rattle.fir_width.specs.working.DeclaredWidths.{leaf_widths, port_widths};
ghost use Rattle.fir_infer_widths.specs.working.Numbered.{Keeps};
ghost use Rattle.fir_infer_widths.specs.working.PushedLeaves.{Pushes, stage_widths, walked_widths};

use crate::arena::Arena;
use crate::leaves::{Unknowns, push_found};
use fir_base::MemoryOut;
use fir_names::{Component, Named, Names};
use fir_type_table::TypeTable;
use fir_types::{Findings, Found};
use std::alloc::Global;

/// What takes numbers: the ports of modules, or what their bodies declare.
#[derive(Clone, Copy)]
enum Stage {
    Ports,
    Bodies,
}

/// The leaves of a circuit under their numbers, with bounds for the widths that are written.
pub fn declared_leaves(
    alloc: Global,
    named: &Named,
    findings: &Findings,
) -> Result<Arena, MemoryOut>
    requires names { HasNames (circuit_of named.now) }
    requires typed { IsTyped (circuit_of named.now) findings.now }
    ensures { IfOk result (Keeps (leaf_widths (circuit_of named.now)) []) }
{
    let mut arena = Arena::new(alloc);
    push_ports(named, findings, &mut arena)?;
    push_bodies(named, findings, &mut arena)?;
    Ok(arena)
}

/// The ports of all modules take the first numbers.
fn push_ports(named: &Named, findings: &Findings, arena: &mut Arena) -> Result<(), MemoryOut>
    requires typed { IsTyped (circuit_of named.now) findings.now }
    requires first { Keeps [] [] arena.old }
    ensures { OnOk result (Keeps (port_widths 0 (circuit_of named.now).modules) [] arena.new) }
{
    for (number, declared) in findings.declared.iter().enumerate() {
        let Some(names) = named.names(number) else {
            unreachable!()
        };
        push_module(&findings.table, names, declared, Stage::Ports, arena)?;
    }
    Ok(())
}

/// What the bodies declare takes the numbers behind them.
fn push_bodies(named: &Named, findings: &Findings, arena: &mut Arena) -> Result<(), MemoryOut>
    requires names { HasNames (circuit_of named.now) }
    requires typed { IsTyped (circuit_of named.now) findings.now }
    requires ports { Keeps (port_widths 0 (circuit_of named.now).modules) [] arena.old }
    ensures { OnOk result (Keeps (leaf_widths (circuit_of named.now)) [] arena.new) }
{
    for (number, declared) in findings.declared.iter().enumerate() {
        let Some(names) = named.names(number) else {
            unreachable!()
        };
        push_module(&findings.table, names, declared, Stage::Bodies, arena)?;
    }
    Ok(())
}

/// What a module declares.
fn push_module(
    table: &TypeTable,
    names: &Names,
    declared: &[Option<Found>],
    stage: Stage,
    arena: &mut Arena,
) -> Result<(), MemoryOut>
    ensures { OnOk result (Pushes (walked_widths stage (component_at names.now) 0 (map (seen (types_of table.now)) declared.now)) arena.old arena.new) }
{
    for (position, found) in declared.iter().enumerate() {
        let component = component_at(names, position);
        push_declared(table, component, *found, stage, arena)?;
    }
    Ok(())
}

/// What the declaration is before which so many stand.
fn component_at(names: &Names, position: usize) -> Option<Component>
    ensures { result ≡ component_at names.now position }
{
    let declaration = names.at(position)?;
    Some(declaration.component)
}

/// A declaration, where its leaves take numbers in the stage. Those of an instance are the ports of its
/// module.
fn push_declared(
    table: &TypeTable,
    component: Option<Component>,
    found: Option<Found>,
    stage: Stage,
    arena: &mut Arena,
) -> Result<(), MemoryOut>
    ensures { OnOk result (Pushes (stage_widths stage component (seen (types_of table.now) found)) arena.old arena.new) }
{
    let (Some(component), Some(found)) = (component, found) else {
        return Ok(());
    };
    match (stage, component) {
        (Stage::Ports, Component::Port(_)) => {
            push_found(table, found, Unknowns::Unwritten, arena)
        }
        (Stage::Bodies, Component::Wire | Component::Register) => {
            push_found(table, found, Unknowns::Unwritten, arena)
        }
        (Stage::Bodies, Component::Node) => {
            push_found(table, found, Unknowns::Everywhere, arena)
        }
        (Stage::Bodies, Component::Memory) => push_found(table, found, Unknowns::Nowhere, arena),
        _ => Ok(()),
    }
}

//! The names in a memory: its ports, of all three kinds, are one namespace.

ghost use Rattle.std.specs.Prelude.{◌≡◌, List, None, [], ◌++◌, IfOk, map, option_map};
ghost use Rattle.fir_ast.specs.Statements.{PlacedName};
ghost use Rattle.fir_ast.specs.working.Views.{memory_part_of, named_of};
ghost use Rattle.fir_ast.specs.working.CodeFaults.{fault_of};
ghost use Rattle.fir_pass.specs.Groups.{first_of};
ghost use Rattle.fir_meaning.specs.Mentions.{data_mentions, memory_mentions, port_mentions, ports_of};
ghost use Rattle.fir_meaning.specs.NameGroups.{faults_in};
ghost use Rattle.fir_resolve.specs.working.Namespaces.{Holds};

use crate::fields::in_type;
use crate::namespace::Namespace;
use fir_ast::{FirFault, Ident, MemoryField};
use fir_base::MemoryOut;
use std::alloc::Global;

/// The first fault of names in the fields of a memory.
pub fn in_memory(alloc: Global, fields: &[MemoryField]) -> Result<Option<FirFault>, MemoryOut>
    ensures { IfOk result (λ f. option_map fault_of f ≡ first_of (faults_in (memory_mentions [] (map memory_part_of fields.now)))) }
{
    let mut namespace = Namespace::new(alloc);
    for field in fields {
        if let Some(fault) = in_data(alloc, field)? {
            return Ok(Some(fault));
        }
        if let Some(fault) = in_ports(alloc, &mut namespace, ports_of(field))? {
            return Ok(Some(fault));
        }
    }
    Ok(None)
}

/// The first fault of names in the type of a memory's words.
fn in_data(alloc: Global, field: &MemoryField) -> Result<Option<FirFault>, MemoryOut>
    ensures { IfOk result (λ f. option_map fault_of f ≡ first_of (faults_in (data_mentions (memory_part_of field.now)))) }
{
    match field {
        MemoryField::DataType(_, _, ty) => in_type(ty, alloc),
        _ => Ok(None),
    }
}

/// The ports that a field declares.
fn ports_of(field: &MemoryField) -> &[Ident]
    ensures { map named_of result.now ≡ ports_of (memory_part_of field.now) }
{
    match field {
        MemoryField::Reader(_, ports)
        | MemoryField::Writer(_, ports)
        | MemoryField::Readwriter(_, ports) => ports.as_slice(),
        _ => &[],
    }
}

/// Declares ports, up to the first that is declared already.
fn in_ports(
    alloc: Global,
    namespace: &mut Namespace,
    ports: &[Ident],
) -> Result<Option<FirFault>, MemoryOut>
    ensures fault { IfOk result (λ f. (before : List PlacedName) → Holds namespace.old before → option_map fault_of f ≡ first_of (faults_in (port_mentions before (map named_of ports.now)))) }
    ensures held { IfOk result (λ f. f ≡ None → (before : List PlacedName) → Holds namespace.old before → Holds namespace.new (before ++ map named_of ports.now)) }
{
    for port in ports {
        if let Some(fault) = namespace.declare(alloc, port.place, &port.name)? {
            return Ok(Some(fault));
        }
    }
    Ok(None)
}

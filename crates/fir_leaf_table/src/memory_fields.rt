//! What the fields of a memory say (FIRRTL spec, "Memories").

ghost use Rattle.std.specs.Prelude.{◌≡◌, ◌++◌, IfOk, OnOk, flat_map, map};
ghost use Rattle.fir_ast.specs.working.Views.{memory_part_of, named_of};
ghost use Rattle.fir_meaning.specs.MemoryFaults.{read_latency_of_part, read_under_write_of_part};
ghost use Rattle.fir_meaning.specs.MemoryTypes.{first_one};
ghost use Rattle.fir_meaning.specs.working.LeafMemories.{port_kinds_of};
ghost use Rattle.fir_leaf_table.specs.working.Memories.{port_seen};

use crate::memory::MemoryPort;
use fir_ast::{Ident, MemoryField, ReadUnderWrite};
use fir_base::MemoryOut;
use std::alloc::Global;

/// The read latency that is written first.
pub fn first_read_latency(fields: &[MemoryField]) -> Option<u128>
    ensures { result ≡ first_one (flat_map read_latency_of_part (map memory_part_of fields.now)) }
{
    for field in fields {
        if let MemoryField::ReadLatency(_, edges) = field {
            return Some(*edges);
        }
    }
    None
}

/// The rule for a read under a write that is written first.
pub fn first_rule(fields: &[MemoryField]) -> Option<ReadUnderWrite>
    ensures { result ≡ first_one (flat_map read_under_write_of_part (map memory_part_of fields.now)) }
{
    for field in fields {
        if let MemoryField::ReadUnderWrite(_, rule) = field {
            return Some(*rule);
        }
    }
    None
}

/// The ports, in the order of the text.
pub fn memory_ports(alloc: Global, fields: &[MemoryField]) -> Result<Vec<MemoryPort>, MemoryOut>
    ensures { IfOk result (λ ports. map port_seen ports.items ≡ flat_map port_kinds_of (map memory_part_of fields.now)) }
{
    let mut ports = Vec::new(alloc);
    for field in fields {
        put_ports(&mut ports, field)?;
    }
    Ok(ports)
}

/// Puts the ports that a field names behind the others.
fn put_ports(ports: &mut Vec<MemoryPort>, field: &MemoryField) -> Result<(), MemoryOut>
    ensures { OnOk result (map port_seen ports.new.items ≡ map port_seen ports.old.items ++ port_kinds_of (memory_part_of field.now)) }
{
    match field {
        MemoryField::Reader(_, names) => put_each(ports, MemoryPort::Reads, names),
        MemoryField::Writer(_, names) => put_each(ports, MemoryPort::Writes, names),
        MemoryField::Readwriter(_, names) => put_each(ports, MemoryPort::ReadsAndWrites, names),
        _ => Ok(()),
    }
}

/// A port for each name.
fn put_each(ports: &mut Vec<MemoryPort>, port: MemoryPort, names: &[Ident]) -> Result<(), MemoryOut>
    ensures { OnOk result (map port_seen ports.new.items ≡ map port_seen ports.old.items ++ map (λ n. port_seen port) (map named_of names.now)) }
{
    for _name in names {
        ports.push(port)?;
    }
    Ok(())
}

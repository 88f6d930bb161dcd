//! The type of a memory: a bundle of its ports (FIRRTL spec, "Memories").

ghost use Rattle.std.specs.Prelude.{◌≡◌, ◌<◌, ◌++◌, ℕ, List, [], ◌∷◌, Some, IfOk, OnOk, length, map, slice_get};
ghost use Rattle.fir_ast.specs.declared.place.Place.{Place};
ghost use Rattle.fir_ast.specs.Types.{DataType, Fields};
ghost use Rattle.fir_ast.specs.working.Views.{memory_part_of, named_of};
ghost use Rattle.fir_meaning.specs.MemoryTypes.{address_width, flipped_fields, memory_bundle, part, port_fields_of, reader_type, readwriter_type, writer_type};
ghost use Rattle.fir_type_table.specs.working.Tables.{Adds, types_of};
ghost use Rattle.fir_check.specs.working.MemoryParts.{AreParts, AreWires, HasPorts, HasPortsIn, HasWires, HasWiresIn, controls_of};

use fir_ast::{Ident, MemoryField, Place};
use fir_base::{MemoryOut, Name};
use fir_bits::least_width;
use fir_type_table::{Part, TypeId, TypeTable};
use std::alloc::Global;

/// The types of which the ports of one memory are made.
#[derive(Clone, Copy)]
struct Wires {
    clock: TypeId,
    bit: TypeId,
    address: TypeId,
    word_type: TypeId,
    mask: TypeId,
}

/// The types of the ports of each kind, of one memory.
#[derive(Clone, Copy)]
struct PortTypes {
    reader: TypeId,
    writer: TypeId,
    readwriter: TypeId,
}

/// The bundle of the ports of a memory whose name stands at the place, with words of that type and so many
/// of them.
pub fn memory_type(
    alloc: Global,
    table: &mut TypeTable,
    place: Place,
    fields: &[MemoryField],
    word_type: TypeId,
    words: u128,
) -> Result<TypeId, MemoryOut>
    requires { word_type.number < length (types_of table.old) }
    ensures { IfOk result (λ id. (t : DataType) → slice_get (types_of table.old) word_type.number ≡ Some t → Adds table.old table.new id.number (memory_bundle place (map memory_part_of fields.now) t words)) }
{
    let wires = wire_types(alloc, table, word_type, words)?;
    let ports = port_types(alloc, table, place, wires)?;
    let mut parts = Vec::new(alloc);
    for field in fields {
        put_ports(alloc, &mut parts, ports, field)?;
    }
    table.add_bundle(alloc, parts)
}

/// The width of an address: the least, at least 1, of the greatest.
fn address_width(words: u128) -> u128
    ensures { result ≡ address_width words }
{
    u128::from(least_width(false, false, words.saturating_sub(1)))
}

/// The types of which the ports are made, behind those that the table has.
fn wire_types(
    alloc: Global,
    table: &mut TypeTable,
    word_type: TypeId,
    words: u128,
) -> Result<Wires, MemoryOut>
    requires { word_type.number < length (types_of table.old) }
    ensures { IfOk result (λ w. (t : DataType) → slice_get (types_of table.old) word_type.number ≡ Some t → HasWiresIn table.old table.new t words w) }
{
    Ok(Wires {
        clock: table.clock(),
        bit: table.bit(),
        address: table.add_uint(address_width(words))?,
        word_type,
        mask: table.add_mask(alloc, word_type)?,
    })
}

/// The types of ports, whose fields stand at the memory's place.
fn port_types(
    alloc: Global,
    table: &mut TypeTable,
    place: Place,
    wires: Wires,
) -> Result<PortTypes, MemoryOut>
    requires { AreWires (types_of table.old) wires }
    ensures { IfOk result (λ ports. (t : DataType) (words : ℕ) → HasWires (types_of table.old) t words wires → HasPortsIn table.old table.new place t words ports) }
{
    Ok(PortTypes {
        reader: reader_type(alloc, table, place, wires)?,
        writer: writer_type(alloc, table, place, wires)?,
        readwriter: readwriter_type(alloc, table, place, wires)?,
    })
}

/// Puts a field behind others: the place is that of its name and of its type.
fn put(
    alloc: Global,
    parts: &mut Vec<Part>,
    place: Place,
    flip: bool,
    name: &[u8],
    ty: TypeId,
) -> Result<(), MemoryOut>
    ensures { OnOk result ((ts : List DataType) (t : DataType) (fs : List (Fields → Fields)) → slice_get ts ty.number ≡ Some t → AreParts ts fs parts.old.items → AreParts ts (fs ++ part place flip name.now t ∷ []) parts.new.items) }
{
    parts.push(Part {
        place,
        flip,
        name: Name::new(alloc, name)?,
        type_place: place,
        ty,
    })?;
    Ok(())
}

/// What all ports begin with.
fn controls(alloc: Global, place: Place, wires: Wires) -> Result<Vec<Part>, MemoryOut>
    ensures { IfOk result (λ parts. (ts : List DataType) (t : DataType) (words : ℕ) → HasWires ts t words wires → AreParts ts (controls_of place words) parts.items) }
{
    let mut parts = Vec::new(alloc);
    put(alloc, &mut parts, place, false, b"addr", wires.address)?;
    put(alloc, &mut parts, place, false, b"en", wires.bit)?;
    put(alloc, &mut parts, place, false, b"clk", wires.clock)?;
    Ok(parts)
}

fn reader_type(
    alloc: Global,
    table: &mut TypeTable,
    place: Place,
    wires: Wires,
) -> Result<TypeId, MemoryOut>
    requires { AreWires (types_of table.old) wires }
    ensures { IfOk result (λ id. (t : DataType) (words : ℕ) → HasWires (types_of table.old) t words wires → Adds table.old table.new id.number (reader_type place t words)) }
{
    let mut parts = controls(alloc, place, wires)?;
    put(alloc, &mut parts, place, true, b"data", wires.word_type)?;
    table.add_bundle(alloc, parts)
}

fn writer_type(
    alloc: Global,
    table: &mut TypeTable,
    place: Place,
    wires: Wires,
) -> Result<TypeId, MemoryOut>
    requires { AreWires (types_of table.old) wires }
    ensures { IfOk result (λ id. (t : DataType) (words : ℕ) → HasWires (types_of table.old) t words wires → Adds table.old table.new id.number (writer_type place t words)) }
{
    let mut parts = controls(alloc, place, wires)?;
    put(alloc, &mut parts, place, false, b"data", wires.word_type)?;
    put(alloc, &mut parts, place, false, b"mask", wires.mask)?;
    table.add_bundle(alloc, parts)
}

fn readwriter_type(
    alloc: Global,
    table: &mut TypeTable,
    place: Place,
    wires: Wires,
) -> Result<TypeId, MemoryOut>
    requires { AreWires (types_of table.old) wires }
    ensures { IfOk result (λ id. (t : DataType) (words : ℕ) → HasWires (types_of table.old) t words wires → Adds table.old table.new id.number (readwriter_type place t words)) }
{
    let mut parts = controls(alloc, place, wires)?;
    put(alloc, &mut parts, place, true, b"rdata", wires.word_type)?;
    put(alloc, &mut parts, place, false, b"wmode", wires.bit)?;
    put(alloc, &mut parts, place, false, b"wdata", wires.word_type)?;
    put(alloc, &mut parts, place, false, b"wmask", wires.mask)?;
    table.add_bundle(alloc, parts)
}

/// Puts the ports of a field behind others.
fn put_ports(
    alloc: Global,
    parts: &mut Vec<Part>,
    ports: PortTypes,
    field: &MemoryField,
) -> Result<(), MemoryOut>
    ensures { OnOk result ((ts : List DataType) (place : Place) (t : DataType) (words : ℕ) (fs : List (Fields → Fields)) → HasPorts ts place t words ports → AreParts ts fs parts.old.items → AreParts ts (fs ++ port_fields_of place t words (memory_part_of field.now)) parts.new.items) }
{
    match field {
        MemoryField::Reader(_, names) => put_each(alloc, parts, ports.reader, names),
        MemoryField::Writer(_, names) => put_each(alloc, parts, ports.writer, names),
        MemoryField::Readwriter(_, names) => put_each(alloc, parts, ports.readwriter, names),
        _ => Ok(()),
    }
}

/// A flipped field for each name.
fn put_each(
    alloc: Global,
    parts: &mut Vec<Part>,
    ty: TypeId,
    names: &[Ident],
) -> Result<(), MemoryOut>
    ensures { OnOk result ((ts : List DataType) (t : DataType) (fs : List (Fields → Fields)) → slice_get ts ty.number ≡ Some t → AreParts ts fs parts.old.items → AreParts ts (fs ++ flipped_fields t (map named_of names.now)) parts.new.items) }
{
    for ident in names {
        put(alloc, parts, ident.place, true, ident.name.as_bytes(), ty)?;
    }
    Ok(())
}

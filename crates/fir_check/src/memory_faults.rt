//! The faults of a memory, E15 and E17, which stand at its name (FIRRTL spec, "Memories").

ghost use Rattle.std.specs.Prelude.{◌≡◌, ◌==◌, flat_map, if◌then◌else◌, map, nat_le, option_map};
ghost use Rattle.fir_ast.specs.working.Views.{memory_part_of, named_of};
ghost use Rattle.fir_meaning.specs.MemoryFaults.{field_faults_unless, flipped_data, is_one, memory_faults, read_latency_of_part, write_latency_of_part};
ghost use Rattle.fir_meaning.specs.MemoryTypes.{data_of_part, depth_of_part, first_one};
ghost use Rattle.fir_meaning.specs.TypeKinds.{is_sized};
ghost use Rattle.fir_type_table.specs.working.Tables.{type_at, types_of};
ghost use Rattle.fir_check.specs.working.FaultsOfWords.{faults_of_words};
ghost use Rattle.fir_types.specs.working.Walked.{Judges};

use crate::faults::not_passive;
use fir_ast::{FirFault, Ident, Memory, MemoryField};
use fir_base::{Name, Refused};
use fir_type_table::{TypeId, TypeTable};
use fir_types::Found;
use fir_types::memory_fields::{NumberField, has_no_second_rule, has_one_word_type, only_number};
use std::alloc::Global;

/// The first fault of a memory whose words, where their type is written, have that type.
pub fn in_memory_fields(
    alloc: Global,
    table: &TypeTable,
    memory: &Memory,
    word_type: Option<TypeId>,
) -> Result<(), Refused<FirFault>>
    ensures { option_map (λ id. type_at (types_of table.now) id.number) word_type ≡ first_one (flat_map data_of_part (map memory_part_of memory.now.fields.items)) → Judges (memory_faults (named_of memory.now.ident) (map memory_part_of memory.now.fields.items)) result }
{
    in_words(alloc, table, memory, word_type)?;
    let (ident, fields) = (&memory.ident, memory.fields.as_slice());
    unless(alloc, has_read_latency(fields), ident, b"read-latency")?;
    unless(alloc, has_write_latency(fields), ident, b"write-latency")?;
    unless(
        alloc,
        has_no_second_rule(fields),
        ident,
        b"read-under-write",
    )
}

/// The first fault of the words of a memory, of their type and of how many they are.
fn in_words(
    alloc: Global,
    table: &TypeTable,
    memory: &Memory,
    word_type: Option<TypeId>,
) -> Result<(), Refused<FirFault>>
    ensures { option_map (λ id. type_at (types_of table.now) id.number) word_type ≡ first_one (flat_map data_of_part (map memory_part_of memory.now.fields.items)) → Judges (faults_of_words (named_of memory.now.ident) (map memory_part_of memory.now.fields.items)) result }
{
    let (ident, fields) = (&memory.ident, memory.fields.as_slice());
    no_flips(alloc, table, ident, word_type)?;
    unless(
        alloc,
        has_sized_words(table, fields, word_type),
        ident,
        b"data-type",
    )?;
    unless(alloc, has_depth(fields), ident, b"depth")
}

/// The first data has no flips.
fn no_flips(
    alloc: Global,
    table: &TypeTable,
    ident: &Ident,
    word_type: Option<TypeId>,
) -> Result<(), Refused<FirFault>>
    ensures { Judges (flipped_data (named_of ident.now) (option_map (λ id. type_at (types_of table.now) id.number) word_type)) result }
{
    match word_type {
        Some(id) if !table.is_passive(id) => {
            Err(not_passive(alloc, table, ident.place, Found::Type(id, false)))
        }
        _ => Ok(()),
    }
}

/// Whether one type of words is written, of UInt and SInt with written widths.
fn has_sized_words(table: &TypeTable, fields: &[MemoryField], word_type: Option<TypeId>) -> bool
    ensures { option_map (λ id. type_at (types_of table.now) id.number) word_type ≡ first_one (flat_map data_of_part (map memory_part_of fields.now)) → result ≡ is_one is_sized (flat_map data_of_part (map memory_part_of fields.now)) }
{
    match word_type {
        Some(id) => has_one_word_type(fields) && table.is_sized(id),
        None => false,
    }
}

/// Whether one depth is written, and is not 0.
fn has_depth(fields: &[MemoryField]) -> bool
    ensures { result ≡ is_one (λ words. nat_le 1 words) (flat_map depth_of_part (map memory_part_of fields.now)) }
{
    match only_number(fields, NumberField::Depth) {
        Some(words) => words >= 1,
        None => false,
    }
}

/// Whether one latency of reads is written, of 0 or 1.
fn has_read_latency(fields: &[MemoryField]) -> bool
    ensures { result ≡ is_one (λ l. nat_le l 1) (flat_map read_latency_of_part (map memory_part_of fields.now)) }
{
    match only_number(fields, NumberField::ReadLatency) {
        Some(ticks) => ticks <= 1,
        None => false,
    }
}

/// Whether one latency of writes is written, of 1.
fn has_write_latency(fields: &[MemoryField]) -> bool
    ensures { result ≡ is_one (λ l. l == 1) (flat_map write_latency_of_part (map memory_part_of fields.now)) }
{
    match only_number(fields, NumberField::WriteLatency) {
        Some(ticks) => ticks == 1,
        None => false,
    }
}

/// E17 of a field, where it does not stand as it is to.
fn unless(alloc: Global, holds: bool, ident: &Ident, word: &[u8]) -> Result<(), Refused<FirFault>>
    ensures { Judges (field_faults_unless holds (named_of ident.now) word.now) result }
{
    if holds {
        return Ok(());
    }
    let name = ident.name.copy(alloc)?;
    let word = Name::new(alloc, word)?;
    Err(Refused::Fault(FirFault::MemoryField(ident.place, name, word)))
}

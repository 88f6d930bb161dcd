//! The fields of a memory, of which each is to stand once (FIRRTL spec, "Memories").

ghost use Rattle.std.specs.Prelude.{◌≡◌, true, flat_map, map, option_map, option_to_list};
ghost use Rattle.fir_ast.specs.working.Views.{memory_part_of};
ghost use Rattle.fir_ast.specs.working.TypeViews.{type_of};
ghost use Rattle.fir_meaning.specs.MemoryFaults.{is_at_most_one, is_one, read_under_write_of_part};
ghost use Rattle.fir_meaning.specs.MemoryTypes.{data_of_part, depth_of_part, first_one};
ghost use Rattle.fir_types.specs.working.MemoryFields.{number_of_part, only};

use fir_ast::{MemoryField, ReadUnderWrite, Ty};

/// A field that has a number.
#[derive(Clone, Copy)]
pub enum NumberField {
    Depth,
    ReadLatency,
    WriteLatency,
}

/// The number of a field of that name, if it is one.
fn number_of(field: &MemoryField, which: NumberField) -> Option<u128>
    ensures { option_to_list result ≡ number_of_part which (memory_part_of field.now) }
{
    match (field, which) {
        (MemoryField::Depth(_, number), NumberField::Depth) => Some(*number),
        (MemoryField::ReadLatency(_, number), NumberField::ReadLatency) => Some(*number),
        (MemoryField::WriteLatency(_, number), NumberField::WriteLatency) => Some(*number),
        _ => None,
    }
}

/// The number of the only field of that name.
pub fn only_number(fields: &[MemoryField], which: NumberField) -> Option<u128>
    ensures { result ≡ only (flat_map (number_of_part which) (map memory_part_of fields.now)) }
{
    let mut found = None;
    for field in fields {
        if let Some(number) = number_of(field, which) {
            if found.is_some() {
                return None;
            }
            found = Some(number);
        }
    }
    found
}

/// The depth that is written first.
pub fn first_depth(fields: &[MemoryField]) -> Option<u128>
    ensures { result ≡ first_one (flat_map depth_of_part (map memory_part_of fields.now)) }
{
    for field in fields {
        if let Some(number) = number_of(field, NumberField::Depth) {
            return Some(number);
        }
    }
    None
}

/// The type of the words, if a field is that.
fn word_type_of(field: &MemoryField) -> Option<&Ty>
    ensures { option_to_list (option_map (λ t. type_of t.now) result) ≡ data_of_part (memory_part_of field.now) }
{
    match field {
        MemoryField::DataType(_, _, ty) => Some(ty),
        _ => None,
    }
}

/// The type of words that is written first.
pub fn first_word_type(fields: &[MemoryField]) -> Option<&Ty>
    ensures { option_map (λ t. type_of t.now) result ≡ first_one (flat_map data_of_part (map memory_part_of fields.now)) }
{
    for field in fields {
        if let Some(ty) = word_type_of(field) {
            return Some(ty);
        }
    }
    None
}

/// Whether one type of words is written.
pub fn has_one_word_type(fields: &[MemoryField]) -> bool
    ensures { result ≡ is_one (λ t. true) (flat_map data_of_part (map memory_part_of fields.now)) }
{
    let mut is_met = false;
    for field in fields {
        if word_type_of(field).is_some() {
            if is_met {
                return false;
            }
            is_met = true;
        }
    }
    is_met
}

/// The rule for a read under a write, if a field is that.
fn rule_of(field: &MemoryField) -> Option<ReadUnderWrite>
    ensures { option_to_list result ≡ read_under_write_of_part (memory_part_of field.now) }
{
    match field {
        MemoryField::ReadUnderWrite(_, rule) => Some(*rule),
        _ => None,
    }
}

/// Whether no second rule for a read under a write is written.
pub fn has_no_second_rule(fields: &[MemoryField]) -> bool
    ensures { result ≡ is_at_most_one (flat_map read_under_write_of_part (map memory_part_of fields.now)) }
{
    let mut is_met = false;
    for field in fields {
        if rule_of(field).is_some() {
            if is_met {
                return false;
            }
            is_met = true;
        }
    }
    true
}

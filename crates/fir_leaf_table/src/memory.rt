//! A memory of a module, as its leaves and arrays need it (FIRRTL spec, "Memories").

ghost use Rattle.std.specs.Prelude.{◌≡◌, ◌+◌, IfOk, length, map};
ghost use Rattle.fir_ast.specs.Statements.{PlacedName};
ghost use Rattle.fir_ast.specs.working.Views.{memory_part_of};
ghost use Rattle.fir_meaning.specs.Components.{Declarations};
ghost use Rattle.fir_meaning.specs.Costs.{sum_of};
ghost use Rattle.fir_meaning.specs.SizedMemories.{sized_array};
ghost use Rattle.fir_meaning.specs.WidthExpressions.{Widths as Assignment};
ghost use Rattle.fir_meaning.specs.working.LeafMemories.{array_count, arrays_of, memory_behind, port_size};
ghost use Rattle.fir_meaning.specs.HeldTypes.{held_types};
ghost use Rattle.fir_leaf_table.specs.working.Memories.{IsMemory, port_seen};
ghost use Rattle.fir_leaf_table.specs.working.TypedLeaves.{types_seen};

use crate::leaf_number::behind;
use crate::memory_fields::{first_read_latency, first_rule, memory_ports};
use crate::word_types::word_types;
use fir_ast::{MemoryField, ReadUnderWrite};
use fir_base::MemoryOut;
use fir_leaf_circuit::LeafType;
use fir_types::{first_depth, first_word_type};
use std::alloc::Global;

/// What a port of a memory does.
#[derive(Clone, Copy)]
pub enum MemoryPort {
    Reads,
    Writes,
    ReadsAndWrites,
}

#[derive(Drop)]
pub struct Memory {
    /// How many are declared in the module before it.
    pub declaration: usize,
    /// What each leaf of a word holds.
    pub data: Vec<LeafType>,
    /// How many words there are.
    pub words: u128,
    /// Whether a read is seen behind the next edge, and not at once.
    pub is_late: bool,
    pub under_write: ReadUnderWrite,
    /// In the order of the text.
    pub ports: Vec<MemoryPort>,
    /// The numbers of its first leaf and its first array.
    pub first: usize,
    pub first_array: usize,
}

/// The memory of these fields, before which so many are declared, with so many leaves and arrays.
pub fn memory_of(
    alloc: Global,
    fields: &[MemoryField],
    declaration: usize,
    first: usize,
    first_array: usize,
) -> Result<Memory, MemoryOut>
    ensures { IfOk result (λ memory. (ds : Declarations) (n : PlacedName) (w : Assignment) → declaration ≡ length ds → first_array ≡ sum_of (map (λ d. arrays_of d.component) ds) → IsMemory memory (memory_behind ds first n (map memory_part_of fields.now)) (held_types w (sized_array (map memory_part_of fields.now)))) }
{
    Ok(Memory {
        data: data_types(alloc, fields)?,
        declaration,
        words: first_depth(fields).unwrap_or(0),
        is_late: first_read_latency(fields).unwrap_or(0) > 0,
        under_write: first_rule(fields).unwrap_or(ReadUnderWrite::Old),
        ports: memory_ports(alloc, fields)?,
        first,
        first_array,
    })
}

/// What each leaf of a word holds.
fn data_types(alloc: Global, fields: &[MemoryField]) -> Result<Vec<LeafType>, MemoryOut>
    ensures holds { IfOk result (λ types. (w : Assignment) → types_seen types.items ≡ held_types w (sized_array (map memory_part_of fields.now))) }
    ensures count { IfOk result (λ types. length types.items ≡ array_count (map memory_part_of fields.now)) }
{
    match first_word_type(fields) {
        Some(ty) => word_types(alloc, ty),
        None => Ok(Vec::new(alloc)),
    }
}

impl MemoryPort {
    /// How many leaves it has, where the data has so many.
    fn size(self, data_leaves: usize) -> Result<usize, MemoryOut>
        ensures { IfOk result (λ size. size ≡ port_size data_leaves (port_seen self)) }
    {
        let (controls, copies) = match self {
            MemoryPort::Reads => (3, 1),
            MemoryPort::Writes => (3, 2),
            MemoryPort::ReadsAndWrites => (4, 3),
        };
        let data = data_leaves.checked_mul(copies).ok_or(MemoryOut)?;
        behind(controls, data)
    }
}

impl Memory {
    /// The leaf behind those of a port that begins at a leaf.
    pub fn behind_port(&self, port: MemoryPort, begins: usize) -> Result<usize, MemoryOut>
        ensures { IfOk result (λ next. next ≡ begins + port_size (length self.now.data.items) (port_seen port)) }
    {
        let size = port.size(self.data.len())?;
        behind(begins, size)
    }
}

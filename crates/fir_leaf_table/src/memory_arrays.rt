//! The arrays of a memory, and what writes them (FIRRTL spec, "Memories").

ghost use Rattle.std.specs.Prelude.{◌≡◌, ◌++◌, IfOk, List, OnOk, length, map};
ghost use Rattle.fir_meaning.specs.TypeLeaves.{TypeLeaf};
ghost use Rattle.fir_meaning.specs.working.LeafMemories.{LeafMemory, arrays_from, writings_from};
ghost use Rattle.fir_meaning.specs.LeafTypes.{LeafType};
ghost use Rattle.fir_leaf_table.specs.working.Memories.{IsMemory};
ghost use Rattle.fir_leaf_circuit.specs.working.Seen.{array_seen, unnamed_array, writing_seen};

use crate::memory::Memory;
use crate::port_writings::port_writing;
use fir_base::MemoryOut;
use fir_leaf_circuit::{LeafArray, Writing};
use std::alloc::Global;

/// Puts the arrays of a memory behind the others, one for each leaf of its data.
pub fn push_arrays(
    alloc: Global,
    memory: &Memory,
    arrays: &mut Vec<LeafArray>,
) -> Result<(), MemoryOut>
    ensures { OnOk result ((meant : LeafMemory) (leaves : List TypeLeaf) (holds : List LeafType) → IsMemory memory.now meant holds → length leaves ≡ length holds → map array_seen arrays.new.items ≡ map array_seen arrays.old.items ++ map unnamed_array (arrays_from meant 0 leaves holds)) }
{
    for (leaf, holds) in memory.data.iter().enumerate() {
        arrays.push(LeafArray {
            declaration: memory.declaration,
            holds: *holds,
            words: memory.words,
            writings: writings(alloc, memory, leaf)?,
        })?;
    }
    Ok(())
}

/// What writes the array of a data leaf, in the order of the ports.
fn writings(alloc: Global, memory: &Memory, leaf: usize) -> Result<Vec<Writing>, MemoryOut>
    ensures { IfOk result (λ writings. (meant : LeafMemory) (holds : List LeafType) → IsMemory memory.now meant holds → map writing_seen writings.items ≡ writings_from meant.data_leaves leaf meant.first meant.ports) }
{
    let mut writings = Vec::new(alloc);
    let mut begins = memory.first;
    for port in &memory.ports {
        if let Some(writing) = port_writing(*port, memory.data.len(), leaf, begins)? {
            writings.push(writing)?;
        }
        begins = memory.behind_port(*port, begins)?;
    }
    Ok(writings)
}

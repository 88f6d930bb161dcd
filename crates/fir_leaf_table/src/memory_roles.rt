//! The leaves of a memory's ports, and which of them are clocks (FIRRTL spec, "Memories").

ghost use Rattle.std.specs.Prelude.{◌≡◌, [], ◌∷◌, ◌++◌, IfOk, List, OnOk, map};
ghost use Rattle.fir_leaf.specs.declared.node.Node.{Node};
ghost use Rattle.fir_meaning.specs.working.LeafMemories.{LeafMemory, clocks_from, memory_declared, memory_roles};
ghost use Rattle.fir_meaning.specs.LeafTypes.{LeafType};
ghost use Rattle.fir_leaf_table.specs.working.Memories.{IsMemory};
ghost use Rattle.fir_leaf_circuit.specs.working.Seen.{memory_seen, role_seen};

use crate::leaf_number::behind;
use crate::memory::Memory;
use crate::port_roles::put_roles;
use fir_base::MemoryOut;
use fir_leaf_circuit::{LeafRole, MemoryClocks};
use std::alloc::Global;

/// What gives each leaf of the ports its value, in the order of the ports and of their fields.
pub fn memory_roles(alloc: Global, memory: &Memory) -> Result<Vec<LeafRole>, MemoryOut>
    ensures { IfOk result (λ roles. (nodes : List Node) (meant : LeafMemory) (holds : List LeafType) → IsMemory memory.now meant holds → map (role_seen nodes) roles.items ≡ memory_roles meant) }
{
    let mut roles = Vec::new(alloc);
    let mut begins = memory.first;
    for port in &memory.ports {
        put_roles(memory, *port, begins, &mut roles)?;
        begins = memory.behind_port(*port, begins)?;
    }
    Ok(roles)
}

/// Puts the clock leaves of the ports behind those of the other memories.
pub fn push_clocks(
    alloc: Global,
    memory: &Memory,
    memories: &mut Vec<MemoryClocks>,
) -> Result<(), MemoryOut>
    ensures { OnOk result ((meant : LeafMemory) (holds : List LeafType) → IsMemory memory.now meant holds → map memory_seen memories.new.items ≡ map memory_seen memories.old.items ++ memory_declared meant ∷ []) }
{
    let port_clocks = memory_clocks(alloc, memory)?;
    memories.push(MemoryClocks {
        declaration: memory.declaration,
        port_clocks,
    })?;
    Ok(())
}

/// The clock leaves of the ports, in their order.
fn memory_clocks(alloc: Global, memory: &Memory) -> Result<Vec<usize>, MemoryOut>
    ensures { IfOk result (λ clocks. (meant : LeafMemory) (holds : List LeafType) → IsMemory memory.now meant holds → clocks.items ≡ clocks_from meant.data_leaves meant.first meant.ports) }
{
    let mut clocks = Vec::new(alloc);
    let mut begins = memory.first;
    for port in &memory.ports {
        clocks.push(behind(begins, 2)?)?;
        begins = memory.behind_port(*port, begins)?;
    }
    Ok(clocks)
}

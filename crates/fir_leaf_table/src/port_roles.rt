//! The leaves of one port of a memory (FIRRTL spec, "Memories").

ghost use Rattle.std.specs.Prelude.{◌≡◌, ◌+◌, ◌*◌, ◌++◌, ◌∷◌, IfOk, List, OnOk, false, map};
ghost use Rattle.fir_leaf.specs.declared.node.Node.{Node};
ghost use Rattle.fir_meaning.specs.working.LeafMemories.{LeafMemory, enable, port_roles, read_role, read_roles, sinks};
ghost use Rattle.fir_meaning.specs.LeafTypes.{LeafType};
ghost use Rattle.fir_leaf_table.specs.working.Memories.{IsMemory, port_seen};
ghost use Rattle.fir_leaf_circuit.specs.working.Seen.{mode_need, role_seen};

use crate::leaf_number::behind;
use crate::memory::{Memory, MemoryPort};
use fir_base::MemoryOut;
use fir_leaf_circuit::{LeafRole, ReadingRole};

/// Puts what gives each leaf of a port that begins at a leaf its value behind the others.
pub fn put_roles(
    memory: &Memory,
    port: MemoryPort,
    begins: usize,
    roles: &mut Vec<LeafRole>,
) -> Result<(), MemoryOut>
    ensures { OnOk result ((nodes : List Node) (meant : LeafMemory) (holds : List LeafType) → IsMemory memory.now meant holds → map (role_seen nodes) roles.new.items ≡ map (role_seen nodes) roles.old.items ++ port_roles meant begins (port_seen port)) }
{
    let data_leaves = memory.data.len();
    put_sinks(3, roles)?;
    match port {
        MemoryPort::Reads => put_reads(memory, begins, None, roles),
        MemoryPort::Writes => put_given(0, data_leaves, roles),
        MemoryPort::ReadsAndWrites => {
            let mode = behind(behind(begins, 3)?, data_leaves)?;
            put_reads(memory, begins, Some(mode), roles)?;
            put_given(1, data_leaves, roles)
        }
    }
}

/// Puts so many leaves that statements drive, and those of what is written and of its mask, which has a leaf for
/// each of the data.
fn put_given(others: usize, data_leaves: usize, roles: &mut Vec<LeafRole>) -> Result<(), MemoryOut>
    ensures { OnOk result ((nodes : List Node) → map (role_seen nodes) roles.new.items ≡ map (role_seen nodes) roles.old.items ++ sinks (others + 2 * data_leaves)) }
{
    let written = data_leaves.checked_mul(2).ok_or(MemoryOut)?;
    put_sinks(behind(others, written)?, roles)
}

/// Puts so many leaves that statements drive.
fn put_sinks(count: usize, roles: &mut Vec<LeafRole>) -> Result<(), MemoryOut>
    ensures { OnOk result ((nodes : List Node) → map (role_seen nodes) roles.new.items ≡ map (role_seen nodes) roles.old.items ++ sinks count) }
{
    for _ in 0..count {
        roles.push(LeafRole::Sink)?;
    }
    Ok(())
}

/// Puts the data leaves that a port reads, of which that of its address and, where it has one, that of its
/// mode are given.
fn put_reads(
    memory: &Memory,
    address: usize,
    mode: Option<usize>,
    roles: &mut Vec<LeafRole>,
) -> Result<(), MemoryOut>
    ensures { OnOk result ((nodes : List Node) (meant : LeafMemory) (holds : List LeafType) → IsMemory memory.now meant holds → map (role_seen nodes) roles.new.items ≡ map (role_seen nodes) roles.old.items ++ read_roles meant (enable address ∷ mode_need false mode) address 0 meant.data_leaves) }
{
    for leaf in 0..memory.data.len() {
        roles.push(read_role(memory, address, mode, leaf)?)?;
    }
    Ok(())
}

/// What gives a data leaf that a port reads its value.
fn read_role(
    memory: &Memory,
    address: usize,
    mode: Option<usize>,
    leaf: usize,
) -> Result<LeafRole, MemoryOut>
    ensures { IfOk result (λ role. (nodes : List Node) (meant : LeafMemory) (holds : List LeafType) → IsMemory memory.now meant holds → role_seen nodes role ≡ read_role meant (enable address ∷ mode_need false mode) address leaf) }
{
    let reading = ReadingRole {
        array: behind(memory.first_array, leaf)?,
        address,
        enable: behind(address, 1)?,
        mode,
    };
    if memory.is_late {
        Ok(LeafRole::Pipe(reading, behind(address, 2)?, memory.under_write))
    } else {
        Ok(LeafRole::Reading(reading))
    }
}

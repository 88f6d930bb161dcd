//! What one port of a memory writes (FIRRTL spec, "Memories").

ghost use Rattle.std.specs.Prelude.{◌≡◌, ◌+◌, IfOk, option_map, option_to_list};
ghost use Rattle.fir_meaning.specs.working.LeafMemories.{port_writings};
ghost use Rattle.fir_leaf_table.specs.working.Memories.{port_seen};
ghost use Rattle.fir_leaf_circuit.specs.working.Seen.{writing_seen};

use crate::leaf_number::behind;
use crate::memory::MemoryPort;
use fir_base::MemoryOut;
use fir_leaf_circuit::Writing;

/// What a port that begins at a leaf writes into the array of a data leaf, if it writes. What it is given stands
/// in front of its mask.
pub fn port_writing(
    port: MemoryPort,
    data_leaves: usize,
    leaf: usize,
    begins: usize,
) -> Result<Option<Writing>, MemoryOut>
    ensures { IfOk result (λ writing. option_to_list (option_map writing_seen writing) ≡ port_writings data_leaves leaf begins (port_seen port)) }
{
    match port {
        MemoryPort::Reads => Ok(None),
        MemoryPort::Writes => {
            let given = behind(behind(begins, 3)?, leaf)?;
            Ok(Some(masked_writing(begins, None, given, data_leaves)?))
        }
        MemoryPort::ReadsAndWrites => {
            let mode = behind(behind(begins, 3)?, data_leaves)?;
            let given = behind(behind(mode, 1)?, leaf)?;
            Ok(Some(masked_writing(begins, Some(mode), given, data_leaves)?))
        }
    }
}

/// What a port writes whose mask has as many leaves as its data.
fn masked_writing(
    address: usize,
    mode: Option<usize>,
    given: usize,
    data_leaves: usize,
) -> Result<Writing, MemoryOut>
    ensures { IfOk result (λ w. w ≡ record { address = address; enable = address + 1; mode = mode; mask = given + data_leaves; clock = address + 2; given = given }) }
{
    Ok(Writing {
        address,
        enable: behind(address, 1)?,
        mode,
        mask: behind(given, data_leaves)?,
        clock: behind(address, 2)?,
        given,
    })
}

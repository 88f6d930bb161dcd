//! The arrays of the state in the shape of a net's traces.

ghost use Rattle.std.specs.Prelude.{◌≡◌, ◌<◌, ◌^◌, [], ◌∷◌, ◌++◌, OnOk, Some, map};
ghost use Rattle.fir_net.specs.working.IsNet.{IsNet};
ghost use Rattle.fir_net_names.specs.working.IsTable.{IsTable};
ghost use Rattle.fir_tick.specs.working.StateWords.{array_word};

use fir_base::{MemoryOut, Name};
use fir_net::{Array, FlatNet};
use fir_net_names::NameTable;
use std::alloc::Global;
use trace_text::StateWord;

/// Appends the arrays of the state in their order, under the names that the table has for them.
pub fn put_array_words(
    alloc: Global,
    table: &NameTable,
    net: &FlatNet,
    words: &mut Vec<StateWord>,
) -> Result<(), MemoryOut>
    requires whole { IsNet net.now }
    requires named { IsTable net.now table.now }
    ensures { OnOk result (words.new.items ≡ words.old.items ++ map (array_word net.now table.now.arrays) net.now.array_order) }
{
    let arrays = net.arrays.as_slice();
    let order = net.array_order.as_slice();
    for number in order {
        let array = &arrays[*number];
        // Each array of the state has a name.
        let Some(name) = table.array(*number) else {
            unreachable!()
        };
        put_array_word(alloc, words, array, name)?;
    }
    Ok(())
}

/// Appends an array of that name.
fn put_array_word(
    alloc: Global,
    words: &mut Vec<StateWord>,
    array: &Array,
    name: &Name,
) -> Result<(), MemoryOut>
    requires { array.now.words < 2 ^ 32 }
    ensures { OnOk result (words.new.items ≡ words.old.items ++ record { name = name.now; width = array.now.width; depth = Some array.now.words } ∷ []) }
{
    words.push(StateWord {
        name: name.copy(alloc)?,
        width: array.width,
        depth: Some(array.words as u32),
    })?;
    Ok(())
}

//! The shape of a net's traces.

ghost use Rattle.std.specs.Prelude.{◌≡◌, [], ◌∷◌, ◌++◌, IfOk, None, OnOk, count_by, map};
ghost use Rattle.std.specs.Option.{option_to_list};
ghost use Rattle.fir_net.specs.working.IsNet.{IsNet};
ghost use Rattle.fir_net.specs.working.WordNames.{HasWordNames};
ghost use Rattle.fir_net_names.specs.working.IsTable.{IsTable};
ghost use Rattle.fir_tick.specs.working.Shapes.{IsShapeOf};
ghost use Rattle.fir_tick.specs.working.StateWords.{input_width, input_widths, is_clock, state_word, state_words};

use crate::array_words::put_array_words;
use fir_base::{MemoryOut, Name};
use fir_net::{FlatNet, Leaf, Role};
use fir_net_names::{NameTable, names};
use std::alloc::Global;
use trace_text::{Shape, StateWord};

/// The shape of the traces of a net: its inputs and clocks in port order, and the words and then the arrays of
/// the state in their order, under their names in the emitted text. Only memory can be wanting.
pub fn shape(alloc: Global, net: &FlatNet) -> Result<Shape, MemoryOut>
    requires whole { IsNet net.now }
    requires words { HasWordNames net.now }
    ensures { IfOk result (λ s. IsShapeOf net.now s) }
{
    let table = names(alloc, net)?;
    let leaves = net.leaves.as_slice();
    let inputs = input_widths(alloc, leaves)?;
    let clocks = clock_count(leaves);
    let state = state_words(alloc, &table, net)?;
    // A net's widths are at most 128, and the names of its table are distinct words.
    let Some(shape) = Shape::new(alloc, inputs, clocks, state)? else {
        unreachable!()
    };
    Ok(shape)
}

/// The widths of the inputs that have bits.
fn input_widths(alloc: Global, leaves: &[Leaf]) -> Result<Vec<u32>, MemoryOut>
    ensures { IfOk result (λ v. v.items ≡ input_widths leaves.now) }
{
    let mut widths = Vec::new(alloc);
    for leaf in leaves {
        if let Some(width) = input_width(leaf) {
            widths.push(width)?;
        }
    }
    Ok(widths)
}

/// The width of an input that has bits. Any other leaf has none.
fn input_width(leaf: &Leaf) -> Option<u32>
    ensures { option_to_list result ≡ input_width leaf.now.role leaf.now.width }
{
    let width = leaf.width;
    match leaf.role {
        Role::Input if width > 0 => Some(width),
        _ => None,
    }
}

fn clock_count(leaves: &[Leaf]) -> usize
    ensures { result ≡ count_by (λ l. is_clock l.role) leaves.now }
{
    leaves.iter().filter(|leaf| is_clock(leaf.role)).count()
}

fn is_clock(role: Role) -> bool
    ensures { result ≡ is_clock role }
{
    matches!(role, Role::Clock)
}

/// The words and arrays of the state in their order, under the names that the table has for them.
fn state_words(alloc: Global, table: &NameTable, net: &FlatNet) -> Result<Vec<StateWord>, MemoryOut>
    requires whole { IsNet net.now }
    requires named { IsTable net.now table.now }
    ensures { IfOk result (λ v. v.items ≡ state_words net.now table.now.leaves table.now.arrays) }
{
    let mut words = register_words(alloc, table, net)?;
    put_array_words(alloc, table, net, &mut words)?;
    Ok(words)
}

/// The words of the registers and pipes of the state.
fn register_words(
    alloc: Global,
    table: &NameTable,
    net: &FlatNet,
) -> Result<Vec<StateWord>, MemoryOut>
    requires whole { IsNet net.now }
    requires named { IsTable net.now table.now }
    ensures { IfOk result (λ v. v.items ≡ map (state_word net.now table.now.leaves) net.now.state) }
{
    let leaves = net.leaves.as_slice();
    let state = net.state.as_slice();
    let mut words = Vec::new(alloc);
    for word in state {
        let number = word.number();
        let leaf = &leaves[number];
        // Each word of the state has a name.
        let Some(name) = table.leaf(*word) else {
            unreachable!()
        };
        put_state_word(alloc, &mut words, leaf, name)?;
    }
    Ok(words)
}

/// Appends the word of a register or a pipe of that name.
fn put_state_word(
    alloc: Global,
    words: &mut Vec<StateWord>,
    leaf: &Leaf,
    name: &Name,
) -> Result<(), MemoryOut>
    ensures { OnOk result (words.new.items ≡ words.old.items ++ record { name = name.now; width = leaf.now.width; depth = None } ∷ []) }
{
    words.push(StateWord {
        name: name.copy(alloc)?,
        width: leaf.width,
        depth: None,
    })?;
    Ok(())
}

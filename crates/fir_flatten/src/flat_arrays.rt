//! The arrays of a flat net (FIRRTL spec, "Memories").

ghost use Rattle.std.specs.Prelude.{◌≡◌, ◌≤◌, ◌++◌, IfOk, OnOk, length};
ghost use Rattle.std.specs.List.{sum_by};
ghost use Rattle.fir_net.specs.working.Arrays.{words_of};
ghost use Rattle.fir_flatten.specs.working.FlatArrays.{flat_array_of, flat_arrays_of, nodes_behind, nodes_of_array, nodes_of_writings, writes_of};
ghost use Rattle.fir_flatten.specs.working.FlatRoles.{width_of};

use crate::array_ports::array_write;
use crate::design_arrays::DesignArray;
use crate::flat_leaves::type_of;
use fir_base::{MemoryOut, Seq};
use fir_leaf_circuit::Writing;
use fir_net::{Array, ArrayWrite, Node, Read};
use std::alloc::Global;

/// More words than a circuit within the limit of costs has.
const MOST_WORDS: usize = 4194304;

/// The arrays of a design, with nodes for what enables their writes behind the others.
pub fn flat_arrays(
    alloc: Global,
    declared: Vec<DesignArray>,
    nodes: &mut Vec<Node>,
) -> Result<Vec<Array>, MemoryOut>
    ensures arrays { IfOk result (λ arrays. arrays.items ≡ flat_arrays_of declared.items (length nodes.old.items)) }
    ensures nodes { OnOk result (nodes.new.items ≡ nodes.old.items ++ nodes_behind declared.items (length nodes.old.items)) }
{
    let mut arrays = Vec::with_capacity(alloc, declared.len())?;
    for array in declared {
        arrays.push(flat_array(alloc, array, nodes)?)?;
    }
    Ok(arrays)
}

/// An array.
fn flat_array(alloc: Global, array: DesignArray, nodes: &mut Vec<Node>) -> Result<Array, MemoryOut>
    ensures array { IfOk result (λ a. a ≡ flat_array_of array (length nodes.old.items)) }
    ensures nodes { OnOk result (nodes.new.items ≡ nodes.old.items ++ nodes_of_array array (length nodes.old.items)) }
{
    let DesignArray {
        path,
        holds,
        words,
        writings,
    } = array;
    let ty = type_of(holds);
    let words = usize::try_from(words).map_err(|_| MemoryOut)?;
    let writes = flat_writes(alloc, writings.as_slice(), nodes)?;
    Ok(Array {
        path,
        signed: ty.signed,
        width: ty.width,
        words,
        writes: Seq::from_vec(writes),
    })
}

/// What writes an array.
fn flat_writes(
    alloc: Global,
    writings: &[Writing],
    nodes: &mut Vec<Node>,
) -> Result<Vec<ArrayWrite>, MemoryOut>
    ensures writes { IfOk result (λ writes. writes.items ≡ writes_of writings.now (length nodes.old.items)) }
    ensures nodes { OnOk result (nodes.new.items ≡ nodes.old.items ++ nodes_of_writings writings.now (length nodes.old.items)) }
{
    // The proof of the loop is else not told of the type of a read.
    let _none: Option<Read> = None;
    let mut writes = Vec::with_capacity(alloc, writings.len())?;
    for writing in writings {
        writes.push(array_write(alloc, writing, nodes)?)?;
    }
    Ok(writes)
}

/// Whether those of the state have no more words together than a circuit within the limit of costs has, as each word
/// costs one at least.
pub fn few_words(arrays: &[Array], order: &[usize]) -> Result<(), MemoryOut>
    ensures { OnOk result (sum_by (words_of arrays.now) order.now ≤ 4194304) }
{
    let mut count: usize = 0;
    for number in order {
        if let Some(array) = arrays.get(*number) {
            count = count.saturating_add(array.words);
        }
    }
    if count > MOST_WORDS {
        return Err(MemoryOut);
    }
    Ok(())
}

//! The arrays of a whole design: those of each of its modules, what writes them with its numbers moved (FIRRTL spec,
//! "Memories", "Instances").

ghost use Rattle.std.specs.Prelude.{◌≡◌, ◌++◌, IfOk, OnOk, map};
ghost use Rattle.fir_flatten.specs.working.DesignArrays.{array_behind, arrays_of, part_arrays};
ghost use Rattle.fir_flatten.specs.working.MovedNets.{writing_moved};

use crate::design_net::ModulePart;
use crate::moved_roles::moved_writing;
use crate::offsets::Offsets;
use fir_base::{MemoryOut, Name, Seq};
use fir_elaborate::ModuleCopy;
use fir_leaf_circuit::{LeafType, Writing};
use std::alloc::Global;

/// An array of the design.
#[derive(Drop)]
pub struct DesignArray {
    /// Its path as it is printed.
    pub path: Name,
    pub holds: LeafType,
    /// How many words there are.
    pub words: u128,
    /// What writes them, over the leaves of the design, in the order of the ports.
    pub writings: Seq<Writing>,
}

/// Those of these copies of modules, one after the other.
pub fn design_arrays(
    alloc: Global,
    modules: &[ModulePart],
    copies: &[ModuleCopy],
) -> Result<Vec<DesignArray>, MemoryOut>
    ensures { IfOk result (λ arrays. arrays.items ≡ arrays_of modules.now copies.now) }
{
    let mut arrays = Vec::new(alloc);
    for copy in copies {
        if let Some(module) = modules.get(copy.module_number) {
            put_arrays(alloc, copy, module, &mut arrays)?;
        }
    }
    Ok(arrays)
}

/// Puts those of a module behind the others.
fn put_arrays(
    alloc: Global,
    copy: &ModuleCopy,
    module: &ModulePart,
    arrays: &mut Vec<DesignArray>,
) -> Result<(), MemoryOut>
    ensures { OnOk result (arrays.new.items ≡ arrays.old.items ++ part_arrays copy.now «module».now) }
{
    let at = Offsets::new(copy, module.part.port_leaves, 0);
    let prefix = copy.prefix.as_bytes();
    for number in 0..module.part.arrays.len() {
        if let Some(array) = design_array(alloc, prefix, module, &at, number)? {
            arrays.push(array)?;
        }
    }
    Ok(())
}

/// The array of that number of a module, behind what stands before its path.
fn design_array(
    alloc: Global,
    prefix: &[u8],
    module: &ModulePart,
    at: &Offsets,
    number: usize,
) -> Result<Option<DesignArray>, MemoryOut>
    ensures { IfOk result (λ array. array ≡ array_behind prefix.now at.now «module».now number) }
{
    let Some(array) = module.part.arrays.get(number) else {
        return Ok(None);
    };
    let Some(text) = module.array_texts.get(number) else {
        return Ok(None);
    };
    let text = text.as_bytes();
    let mut path = Vec::with_capacity(alloc, prefix.len().saturating_add(text.len()))?;
    path.extend_from_slice(prefix)?;
    path.extend_from_slice(text)?;
    let writings = moved_writings(alloc, &array.writings, at)?;
    Ok(Some(DesignArray {
        path: Name::from_vec(path),
        holds: array.holds,
        words: array.words,
        writings: Seq::from_vec(writings),
    }))
}

/// What writes an array.
fn moved_writings(
    alloc: Global,
    writings: &[Writing],
    at: &Offsets,
) -> Result<Vec<Writing>, MemoryOut>
    ensures { IfOk result (λ moved. moved.items ≡ map (writing_moved at.now) writings.now) }
{
    let mut moved = Vec::with_capacity(alloc, writings.len())?;
    for writing in writings {
        moved.push(moved_writing(writing, at))?;
    }
    Ok(moved)
}

//! The words and the arrays of the state that a module has of its own (FIRRTL spec, "Registers", "Memories").

ghost use Rattle.std.specs.Prelude.{◌≡◌, ◌++◌, IfOk, map, OnOk};
ghost use Rattle.fir_meaning.specs.LeafTypes.{has_bits};
ghost use Rattle.fir_leaf_circuit.specs.declared.array.LeafArray.{LeafArray as ArrayOfCode};
ghost use Rattle.fir_leaf_circuit.specs.working.Seen.{type_seen};
ghost use Rattle.fir_elaborate.specs.working.Walks.{array_numbers, first_from, is_word, word_numbers};

use crate::numbers::Numbers;
use fir_ast::LeafId;
use fir_base::MemoryOut;
use fir_leaf_circuit::{Leaf, LeafArray, LeafRole, LeafType};

/// Appends the numbers of the words among the leaves of a copy, from one of its module on and before another.
pub fn push_words(
    leaves: &[Leaf],
    at: Numbers,
    from: usize,
    upto: usize,
    state: &mut Vec<LeafId>,
) -> Result<(), MemoryOut>
    ensures { OnOk result (state.new.items ≡ state.old.items ++ word_numbers at leaves.now from upto) }
{
    for leaf in from..upto {
        let there = leaves.get(leaf).ok_or(MemoryOut)?;
        if is_word(there) {
            state.push(LeafId::new(at.number(leaf)?))?;
        }
    }
    Ok(())
}

/// Whether the leaf is a word: it keeps a number of at least one bit.
fn is_word(leaf: &Leaf) -> bool
    ensures { result ≡ is_word leaf.now }
{
    match leaf.role {
        LeafRole::Register(_, _) | LeafRole::Pipe(_, _, _) => has_bits(leaf.holds),
        _ => false,
    }
}

/// Appends the numbers of the arrays of a copy that have bits, from one of its module on and before another.
pub fn push_arrays(
    arrays: &[LeafArray],
    at: Numbers,
    from: usize,
    upto: usize,
    order: &mut Vec<usize>,
) -> Result<(), MemoryOut>
    ensures { OnOk result (order.new.items ≡ order.old.items ++ array_numbers at arrays.now from upto) }
{
    for array in from..upto {
        let there = arrays.get(array).ok_or(MemoryOut)?;
        if has_bits(there.holds) {
            order.push(at.array_number(array)?)?;
        }
    }
    Ok(())
}

/// How many of the first arrays of a module, of which there are so many, stand before those of a declaration and of
/// what is declared behind it, where arrays stand in the order of their declarations.
pub fn arrays_before(
    arrays: &[LeafArray],
    upto: usize,
    declaration: usize,
) -> Result<usize, MemoryOut>
    ensures { IfOk result (λ n. n ≡ first_from (map (λ (a : ArrayOfCode). a.declaration) arrays.now) upto declaration) }
{
    for before in (0..upto).rev() {
        let last = arrays.get(before).ok_or(MemoryOut)?;
        if last.declaration < declaration {
            return Ok(before + 1);
        }
    }
    Ok(0)
}

fn has_bits(holds: LeafType) -> bool
    ensures { result ≡ has_bits (type_seen holds) }
{
    match holds {
        LeafType::Number(ty) => ty.width > 0,
        LeafType::Clock => false,
    }
}

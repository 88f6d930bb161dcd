//! The names of arrays.

ghost use Rattle.std.specs.Prelude.{◌≡◌, ℕ, List, None, IfOk, OnOk, length, map};
ghost use Rattle.fir_net.specs.working.IsNet.{IsNet};
ghost use Rattle.fir_net_names.specs.working.LeafNamed.{array_base};
ghost use Rattle.fir_net_names.specs.working.NameSets.{HasNames, Holds};

use crate::free_name::take_name;
use crate::taken::Taken;
use fir_base::{MemoryOut, Name, Seq};
use fir_net::{Array, FlatNet};
use std::alloc::Global;

/// The names of the arrays of a net, by their numbers: those that have bits take theirs in the order of the
/// state, behind the names that are taken.
pub fn array_names(
    alloc: Global,
    taken: &mut Taken,
    net: &FlatNet,
) -> Result<Seq<Option<Name>>, MemoryOut>
    requires { IsNet net.now }
    ensures table { IfOk result (λ names. (before : List (List ℕ)) → Holds taken.old.names before → HasNames (array_base net.now) before net.now.array_order names taken.new.names) }
    ensures count { IfOk result (λ names. length names ≡ length net.now.arrays) }
{
    let arrays = net.arrays.as_slice();
    let order = net.array_order.as_slice();
    let mut names = no_names(alloc, arrays)?;
    for array in order {
        let number = *array;
        let name = take_name(alloc, taken, &arrays[number].path)?;
        names[number] = Some(name);
    }
    Ok(Seq::from_vec(names))
}

/// No name for each array.
fn no_names(alloc: Global, arrays: &[Array]) -> Result<Vec<Option<Name>>, MemoryOut>
    ensures { IfOk result (λ names. names.items ≡ map (λ a. None) arrays.now) }
{
    let mut names = Vec::new(alloc);
    for array in arrays {
        let _ = array;
        names.push(None)?;
    }
    Ok(names)
}

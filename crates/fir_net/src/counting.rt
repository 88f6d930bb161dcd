//! How many leaves, registers and arrays a net has.

ghost use Rattle.std.specs.Prelude.{◌≡◌};
ghost use Rattle.fir_net.specs.working.Counted.{array_count, leaf_count, register_count, is_register};

use crate::leaf::{Leaf, Role};
use crate::net::FlatNet;
use crate::totals::Counts;

/// The counts of a net, leaves and arrays of no bits and clocks included.
pub fn counts(net: &FlatNet) -> Counts
    ensures leaves { result.leaves ≡ leaf_count net.now }
    ensures registers { result.registers ≡ register_count net.now }
    ensures memories { result.memories ≡ array_count net.now }
{
    let leaves = net.leaves.as_slice();
    Counts {
        leaves: leaves.len() as u64,
        registers: leaves.iter().filter(|leaf| is_register(leaf)).count() as u64,
        memories: net.arrays.as_slice().len() as u64,
    }
}

fn is_register(leaf: &Leaf) -> bool
    ensures { result ≡ is_register leaf.now.role }
{
    matches!(leaf.role, Role::Register(_))
}

//! The walk from a clock leaf to its root.

ghost use Rattle.std.specs.Prelude.{ℕ, IfNone, IfSome};
ghost use Rattle.fir_clock_root.specs.working.ClockRoots.{HasRoot};

use crate::steps::{driver_of, input_number};
use fir_ast::LeafId;
use fir_net::FlatNet;

/// The number of the clock input at which the drivers of a clock leaf end, counted from 0 among the clock inputs in
/// the order of the leaves. There is none where they end at a leaf without a clock or go in a ring, nor for a leaf
/// that is no clock. It takes no memory.
pub fn clock_root(net: &FlatNet, leaf: LeafId) -> Option<usize>
    ensures root { IfSome result (λ n. HasRoot net.now leaf n) }
    ensures none { IfNone result ((n : ℕ) → HasRoot net.now leaf n → ⊥) }
{
    let leaves = net.leaves.as_slice();
    let mut end = leaf;
    // A walk of as many steps as there are leaves goes in a ring.
    for _step in 0..leaves.len() {
        match driver_of(leaves, end) {
            Some(driver) => end = driver,
            None => return input_number(leaves, end),
        }
    }
    None
}

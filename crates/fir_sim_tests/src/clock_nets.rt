//! A small net of clocks.

use fir_ast::{LeafId, Place};
use fir_base::{MemoryOut, Name, Seq};
use fir_net::{FlatNet, Leaf, Role};
use std::alloc::Global;

/// A net with two clock inputs, a chain behind the second, an invalid, and a ring.
pub fn clocks(alloc: Global) -> Result<FlatNet, MemoryOut> {
    net(
        alloc,
        &[
            Role::Clock,
            Role::Input,
            Role::Clock,
            Role::ClockOutput(leaf(5)),
            Role::ClockWire(leaf(2)),
            Role::ClockWire(leaf(4)),
            Role::ClockWire(None),
            Role::ClockWire(leaf(6)),
            Role::ClockWire(leaf(9)),
            Role::ClockWire(leaf(8)),
            Role::ClockWire(leaf(9)),
            Role::ClockWire(leaf(0)),
        ],
    )
}

fn leaf(number: usize) -> Option<LeafId> {
    Some(LeafId::new(number))
}

fn net(alloc: Global, roles: &[Role]) -> Result<FlatNet, MemoryOut> {
    let name = Name::new(alloc, b"n")?;
    let mut leaves = Vec::new(alloc);
    for &role in roles {
        let path = Name::new(alloc, b"l")?;
        leaves.push(Leaf {
            path,
            place: Place { line: 1, col: 1 },
            signed: false,
            width: 1,
            role,
        })?;
    }
    Ok(FlatNet {
        name,
        leaves: Seq::from_vec(leaves),
        nodes: Seq::from_vec(Vec::new(alloc)),
        state: Seq::from_vec(Vec::new(alloc)),
        arrays: Seq::from_vec(Vec::new(alloc)),
        array_order: Seq::from_vec(Vec::new(alloc)),
    })
}

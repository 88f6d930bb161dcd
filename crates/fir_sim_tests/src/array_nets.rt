//! A small net with an array.

ghost use Rattle.std.specs.Prelude.{◌≡◌, [], ◌∷◌, IfOk, false};
ghost use Rattle.fir_net.specs.declared.reads.Read.{Read};
ghost use Rattle.fir_net.specs.working.IsNet.{IsNet};
ghost use Rattle.fir_net.specs.working.Settled.{shape};

use crate::init_nets::{leaf, net};
use fir_ast::LeafId;
use fir_base::{MemoryOut, Name, Seq};
use fir_net::{Array, ArrayRead, ArrayWrite, FlatNet, Role};
use std::alloc::Global;

/// Three words of four bits: while c is 1 the one at a takes x at an edge of k, and while d is 1 the one at b takes
/// y at an edge of j. The output shows the one at r while e is 1.
pub fn words(alloc: Global) -> Result<FlatNet, MemoryOut>
    ensures whole { IfOk result (λ n. IsNet n) }
    ensures shape { IfOk result (λ n. shape n ≡ record { inputs = 1 ∷ 1 ∷ 2 ∷ 2 ∷ 4 ∷ 4 ∷ 1 ∷ 2 ∷ []; clocks = 2; state = 4 ∷ 4 ∷ 4 ∷ [] }) }
{
    net(
        alloc,
        &[
            (b'k', 1, 1, Role::Clock),
            (b'j', 1, 1, Role::Clock),
            (b'c', 1, 1, Role::Input),
            (b'd', 1, 1, Role::Input),
            (b'a', 1, 2, Role::Input),
            (b'b', 1, 2, Role::Input),
            (b'x', 1, 4, Role::Input),
            (b'y', 1, 4, Role::Input),
            (b'e', 1, 1, Role::Input),
            (b'r', 1, 2, Role::Input),
            (b'o', 1, 4, Role::Output(leaf(11))),
            (b'w', 1, 4, Role::Reading(reading())),
        ],
        Vec::new(alloc),
        Vec::new(alloc),
        vec![in alloc; array(alloc)?]?,
        vec![in alloc; 0]?,
    )
}

fn reading() -> ArrayRead
    ensures { result ≡ record { array = 0; address = Read.Leaf 9; enable = Read.Leaf 8 } }
{
    ArrayRead {
        array: 0,
        address: leaf(9),
        enable: leaf(8),
    }
}

pub fn array(alloc: Global) -> Result<Array, MemoryOut>
    ensures { IfOk result (λ a. a ≡ record { path = 109 ∷ []; signed = false; width = 4; words = 3; writes = record { clock = 0; condition = Read.Leaf 2; address = Read.Leaf 4; given = Read.Leaf 6 } ∷ record { clock = 1; condition = Read.Leaf 3; address = Read.Leaf 5; given = Read.Leaf 7 } ∷ [] }) }
{
    let writes = vec![in alloc; write(0, 2, 4, 6), write(1, 3, 5, 7)]?;
    Ok(Array {
        path: Name::new(alloc, b"m")?,
        signed: false,
        width: 4,
        words: 3,
        writes: Seq::from_vec(writes),
    })
}

fn write(clock: usize, condition: usize, address: usize, given: usize) -> ArrayWrite
    ensures { result ≡ record { clock = clock; condition = Read.Leaf condition; address = Read.Leaf address; given = Read.Leaf given } }
{
    ArrayWrite {
        clock: LeafId::new(clock),
        condition: leaf(condition),
        address: leaf(address),
        given: leaf(given),
    }
}

//! A small net of pipes and an array.

ghost use Rattle.std.specs.Prelude.{◌≡◌, [], ◌∷◌, IfOk, true, false};
ghost use Rattle.fir_net.specs.declared.reads.Read.{Read};
ghost use Rattle.fir_net.specs.working.IsNet.{IsNet};
ghost use Rattle.fir_net.specs.working.Settled.{shape};

use crate::array_nets::array;
use crate::init_nets::{leaf, net};
use fir_ast::LeafId;
use fir_base::MemoryOut;
use fir_net::{ArrayRead, FlatNet, Pipe, Role};
use std::alloc::Global;

/// The array of `words`, with three pipes that read at r while e is 1: u takes the word before the writes and v the
/// one after them at an edge of k, and w takes the one after them at an edge of j. The outputs show u and v.
pub fn pipes(alloc: Global) -> Result<FlatNet, MemoryOut>
    ensures whole { IfOk result (λ n. IsNet n) }
    ensures shape { IfOk result (λ n. shape n ≡ record { inputs = 1 ∷ 1 ∷ 2 ∷ 2 ∷ 4 ∷ 4 ∷ 1 ∷ 2 ∷ []; clocks = 2; state = 4 ∷ 4 ∷ 4 ∷ 4 ∷ 4 ∷ 4 ∷ [] }) }
{
    net(
        alloc,
        &[
            (b'k', 1, 1, Role::Clock),
            (b'j', 1, 1, Role::Clock),
            (b'c', 1, 1, Role::Input),
            (b'd', 1, 1, Role::Input),
            (b'a', 1, 2, Role::Input),
            (b'b', 1, 2, Role::Input),
            (b'x', 1, 4, Role::Input),
            (b'y', 1, 4, Role::Input),
            (b'e', 1, 1, Role::Input),
            (b'r', 1, 2, Role::Input),
            (b'o', 1, 4, Role::Output(leaf(12))),
            (b'p', 1, 4, Role::Output(leaf(13))),
            (b'u', 1, 4, Role::Pipe(pipe(0, false))),
            (b'v', 1, 4, Role::Pipe(pipe(0, true))),
            (b'w', 1, 4, Role::Pipe(pipe(1, true))),
        ],
        Vec::new(alloc),
        vec![in alloc; LeafId::new(12), LeafId::new(13), LeafId::new(14)]?,
        vec![in alloc; array(alloc)?]?,
        vec![in alloc; 0]?,
    )
}

fn pipe(clock: usize, is_new: bool) -> Pipe
    ensures { result ≡ record { clock = clock; read = record { array = 0; address = Read.Leaf 9; enable = Read.Leaf 8 }; is_new = is_new } }
{
    Pipe {
        clock: LeafId::new(clock),
        read: ArrayRead {
            array: 0,
            address: leaf(9),
            enable: leaf(8),
        },
        is_new,
    }
}

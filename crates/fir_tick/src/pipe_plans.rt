//! What a tick does with pipes, worked out once.

ghost use Rattle.std.specs.Prelude.{◌≡◌, IfOk, Some, slice_get};
ghost use Rattle.fir_net.specs.working.IsNet.{IsNet};
ghost use Rattle.fir_net.specs.working.Settled.{registers};
ghost use Rattle.fir_tick.specs.working.ArraySpans.{AreSpans};
ghost use Rattle.fir_tick.specs.working.PipePlans.{ArePipePlans, IsPipeWork};

use crate::array_reads::{WordRead, word_read};
use crate::roots::root_at;
use crate::spans::ArraySpan;
use fir_ast::LeafId;
use fir_base::MemoryOut;
use fir_net::{FlatNet, Leaf, Role};
use std::alloc::Global;

/// A pipe: the place of its word in the state, its width in bits, the number of its clock among the clock
/// inputs, if it has one, and what it reads at an edge of it.
#[derive(Clone, Copy)]
pub struct PipePlan {
    pub place: usize,
    pub width: u32,
    pub clock: Option<usize>,
    pub read: WordRead,
}

/// The pipes in the order of the state: those that read the words after all writes of an edge, or those that
/// read them before.
pub fn pipe_plans(
    alloc: Global,
    net: &FlatNet,
    spans: &[ArraySpan],
    roots: &[Option<usize>],
    is_new: bool,
) -> Result<Vec<PipePlan>, MemoryOut>
    requires whole { IsNet net.now }
    requires spans { AreSpans net.now spans.now }
    ensures { IfOk result (λ v. ArePipePlans net.now roots.now is_new 0 (registers net.now) v.items) }
{
    let leaves = net.leaves.as_slice();
    let state = net.state.as_slice();
    let mut plans = Vec::new(alloc);
    for (place, word) in state.iter().enumerate() {
        let number = word.number();
        let leaf = &leaves[number];
        if let Some(plan) = pipe_plan(net, spans, roots, is_new, place, *word, leaf) {
            plans.push(plan)?;
        }
    }
    Ok(plans)
}

/// The plan of the leaf of a word, whose number in the state is `place`, if it is a pipe that reads so.
fn pipe_plan(
    net: &FlatNet,
    spans: &[ArraySpan],
    roots: &[Option<usize>],
    is_new: bool,
    place: usize,
    number: LeafId,
    leaf: &Leaf,
) -> Option<PipePlan>
    requires whole { IsNet net.now }
    requires spans { AreSpans net.now spans.now }
    requires at { slice_get net.now.leaves number ≡ Some leaf.now }
    ensures { IsPipeWork net.now roots.now is_new place number result }
{
    match leaf.role {
        Role::Pipe(pipe) if pipe.is_new == is_new => Some(PipePlan {
            place,
            width: leaf.width,
            clock: root_at(roots, pipe.clock),
            read: word_read(net, spans, pipe.read),
        }),
        _ => None,
    }
}

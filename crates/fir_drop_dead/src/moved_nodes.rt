//! Nodes over kept leaves and nodes.

ghost use Rattle.std.specs.Prelude.{◌≡◌, IfOk, map};
ghost use Rattle.fir_drop_dead.specs.working.Moved.{moved_node, moved_read};

use crate::kept::Kept;
use fir_base::MemoryOut;
use fir_net::{Mux, Node, Operation, Read, Reads};
use std::alloc::Global;

/// A node.
pub fn moved_node(alloc: Global, node: Node, kept: &Kept) -> Result<Node, MemoryOut>
    ensures { IfOk result (λ n. n ≡ moved_node kept.now node) }
{
    match node {
        Node::Literal(value) => Ok(Node::Literal(value)),
        Node::Operation(operation) => {
            let Operation {
                op,
                reads,
                integers,
                signed,
                width,
            } = operation;
            let reads = moved_reads(alloc, reads.as_slice(), kept)?;
            Ok(Node::Operation(Operation {
                op,
                reads,
                integers,
                signed,
                width,
            }))
        }
        Node::Mux(mux) => {
            let [condition, first, second] = mux.reads;
            Ok(Node::Mux(Mux {
                reads: [kept.read(condition), kept.read(first), kept.read(second)],
                signed: mux.signed,
                width: mux.width,
            }))
        }
    }
}

fn moved_reads(alloc: Global, reads: &[Read], kept: &Kept) -> Result<Reads, MemoryOut>
    ensures { IfOk result (λ all. all ≡ map (moved_read kept.now) reads.now) }
{
    let mut moved = Reads::new(alloc);
    for read in reads {
        moved.push(kept.read(*read))?;
    }
    Ok(moved)
}

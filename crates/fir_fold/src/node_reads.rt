//! Nodes whose operands are written anew.

ghost use Rattle.std.specs.Prelude.{◌≡◌, IfOk, map};
ghost use Rattle.fir_net.specs.declared.node.Node.TheVariants as node;
ghost use Rattle.fir_fold.specs.working.Standing.{node_read, stands_for};

use crate::stands::Stands;
use fir_base::{MemoryOut, Seq};
use fir_net::{Mux, Node, Operation, Read, Reads};
use std::alloc::Global;

/// A node that reads what stands for the operands of a node.
pub fn read_anew(alloc: Global, node: &Node, stands: &Stands) -> Result<Node, MemoryOut>
    ensures { IfOk result (λ n. n ≡ node_read (stands_for stands.now) node.now) }
{
    match node {
        Node::Literal(value) => Ok(Node::Literal(*value)),
        Node::Operation(operation) => operation_anew(alloc, operation, stands),
        Node::Mux(mux) => {
            let [condition, first, second] = mux.reads;
            Ok(Node::Mux(Mux {
                reads: [
                    stands.read(condition),
                    stands.read(first),
                    stands.read(second),
                ],
                signed: mux.signed,
                width: mux.width,
            }))
        }
    }
}

fn operation_anew(alloc: Global, operation: &Operation, stands: &Stands) -> Result<Node, MemoryOut>
    ensures { IfOk result (λ n. n ≡ node.Operation (record operation.now { reads = map (stands_for stands.now) operation.now.reads })) }
{
    let reads = reads_anew(alloc, operation.reads.as_slice(), stands)?;
    let integers = Vec::from_slice(alloc, operation.integers.as_slice())?;
    Ok(Node::Operation(Operation {
        op: operation.op,
        reads,
        integers: Seq::from_vec(integers),
        signed: operation.signed,
        width: operation.width,
    }))
}

fn reads_anew(alloc: Global, reads: &[Read], stands: &Stands) -> Result<Reads, MemoryOut>
    ensures { IfOk result (λ all. all ≡ map (stands_for stands.now) reads.now) }
{
    let mut all = Reads::new(alloc);
    for read in reads {
        all.push(stands.read(*read))?;
    }
    Ok(all)
}

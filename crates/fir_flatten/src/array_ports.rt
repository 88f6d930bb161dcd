//! What a memory's port reads of an array, and what it writes there (FIRRTL spec, "Memories"). The leaves that have to be
//! 1 or 0 for it are one bit, which takes nodes of its own where they are several.

ghost use Rattle.std.specs.Prelude.{◌≡◌, [], ◌∷◌, ◌++◌, IfOk, OnOk, length};
ghost use Rattle.fir_bits.specs.declared.operators.PrimOp.TheVariants.{And};
ghost use Rattle.fir_net.specs.declared.reads.Read.TheVariants as read;
ghost use Rattle.fir_flatten.specs.working.ArrayPorts.{array_read, array_write, bit_node, both_node, reading_nodes, writing_nodes};

use fir_ast::{LeafId, NodeId};
use fir_base::{MemoryOut, Seq};
use fir_bits::PrimOp;
use fir_leaf_circuit::{ReadingRole, Writing};
use fir_net::{ArrayRead, ArrayWrite, Node, Operation, Read, Reads};
use std::alloc::Global;

/// What a port reads. It reads while its enable is 1 and its mode, where there is one, is 0.
pub fn array_read(
    alloc: Global,
    reading: ReadingRole,
    nodes: &mut Vec<Node>,
) -> Result<ArrayRead, MemoryOut>
    ensures read { IfOk result (λ r. r ≡ array_read reading (length nodes.old.items)) }
    ensures nodes { OnOk result (nodes.new.items ≡ nodes.old.items ++ reading_nodes reading (length nodes.old.items)) }
{
    let enable = leaf(reading.enable);
    let enable = match reading.mode {
        Some(mode) => {
            let reads = put_bit(alloc, PrimOp::Not, &[leaf(mode)], nodes)?;
            put_bit(alloc, PrimOp::And, &[enable, reads], nodes)?
        }
        None => enable,
    };
    Ok(ArrayRead {
        array: reading.array,
        address: leaf(reading.address),
        enable,
    })
}

/// What a port writes. It writes where its enable, its mode, where there is one, and the mask are 1.
pub fn array_write(
    alloc: Global,
    writing: &Writing,
    nodes: &mut Vec<Node>,
) -> Result<ArrayWrite, MemoryOut>
    ensures write { IfOk result (λ w. w ≡ array_write writing.now (length nodes.old.items)) }
    ensures nodes { OnOk result (nodes.new.items ≡ nodes.old.items ++ writing_nodes writing.now (length nodes.old.items)) }
{
    let mask = leaf(writing.mask);
    let mask = match writing.mode {
        Some(mode) => put_bit(alloc, PrimOp::And, &[leaf(mode), mask], nodes)?,
        None => mask,
    };
    let condition = put_bit(alloc, PrimOp::And, &[leaf(writing.enable), mask], nodes)?;
    Ok(ArrayWrite {
        clock: LeafId::new(writing.clock),
        condition,
        address: leaf(writing.address),
        given: leaf(writing.given),
    })
}

fn leaf(number: usize) -> Read
    ensures { result ≡ read.Leaf number }
{
    Read::Leaf(LeafId::new(number))
}

/// Puts an operation of one bit behind the nodes.
fn put_bit(
    alloc: Global,
    op: PrimOp,
    operands: &[Read],
    nodes: &mut Vec<Node>,
) -> Result<Read, MemoryOut>
    ensures read { IfOk result (λ r. r ≡ read.Node (length nodes.old.items)) }
    ensures nodes { OnOk result (nodes.new.items ≡ nodes.old.items ++ bit_node op operands.now ∷ []) }
{
    let number = nodes.len();
    let mut reads = Reads::new(alloc);
    for operand in operands {
        reads.push(*operand)?;
    }
    nodes.push(Node::Operation(Operation {
        op,
        reads,
        integers: Seq::from_vec(Vec::new(alloc)),
        signed: false,
        width: 1,
    }))?;
    Ok(Read::Node(NodeId::new(number)))
}

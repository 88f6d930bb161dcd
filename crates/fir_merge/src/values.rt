//! Nodes of values: literals, operations and choices.

ghost use Rattle.std.specs.Prelude.{◌≡◌, ◌≤◌, IfOk, length, map};
ghost use Rattle.fir_net.specs.working.Dependence.{support_of};
ghost use Rattle.fir_merge.specs.working.NodeTerms.{AreBelow, IsBelow};
ghost use Rattle.fir_merge.specs.working.Bounds.{ChoiceStands, EachBelow, Grown, MuxStands, NodeStands, OperationStands, TestStands, ValueStands, ZeroStands, operation_type};

use crate::bound::Bound;
use crate::net_nodes::NetNodes;
use fir_base::{MemoryOut, Seq};
use fir_bits::{Bits, NO_TYPE, Num, NumTy, PrimOp, result_type};
use fir_net::{Mux, Node, Operation, Read, Reads};
use std::alloc::Global;

/// Adds a node, or finds the one that is equal, and tells where its value is, which is of the type.
fn add_node(net: &mut NetNodes, node: Node, ty: NumTy) -> Result<Bound, MemoryOut>
    requires { AreBelow (length net.old) (support_of node) }
    ensures { IfOk result (NodeStands net.old net.new node ty) }
{
    let number = net.add(node)?;
    Ok(Bound {
        read: Read::Node(number),
        ty,
    })
}

/// Adds a literal.
pub fn add_value(net: &mut NetNodes, value: Num) -> Result<Bound, MemoryOut>
    ensures grown { IfOk result (Grown net.old net.new) }
    ensures stands { IfOk result (ValueStands net.new value) }
{
    let ty = value.ty();
    Ok(add_node(net, Node::Literal(value), ty)?)
}

/// Adds the zero of a type.
pub fn add_zero(net: &mut NetNodes, ty: NumTy) -> Result<Bound, MemoryOut>
    requires { ty.width ≤ 128 }
    ensures grown { IfOk result (Grown net.old net.new) }
    ensures stands { IfOk result (ZeroStands net.new ty) }
{
    let zero = Num {
        signed: ty.signed,
        value: Bits::of(ty.width, 0),
    };
    Ok(add_value(net, zero)?)
}

/// Adds an operation on operands and integers.
pub fn add_operation(
    alloc: Global,
    net: &mut NetNodes,
    op: PrimOp,
    operands: &[Bound],
    integers: &[u128],
) -> Result<Bound, MemoryOut>
    requires { EachBelow (length net.old) operands.now }
    ensures grown { IfOk result (Grown net.old net.new) }
    ensures stands { IfOk result (OperationStands net.old net.new op operands.now integers.now) }
{
    let ty = operation_type(alloc, op, operands, integers)?;
    let operation = Operation {
        op,
        reads: reads_of(alloc, operands)?,
        integers: Seq::from_vec(Vec::from_slice(alloc, integers)?),
        signed: ty.signed,
        width: ty.width,
    };
    Ok(add_node(net, Node::Operation(operation), ty)?)
}

/// The type of the operation's result. One that has no type counts as one of no bits.
fn operation_type(
    alloc: Global,
    op: PrimOp,
    operands: &[Bound],
    integers: &[u128],
) -> Result<NumTy, MemoryOut>
    ensures { IfOk result (λ t. t ≡ operation_type op operands.now integers.now) }
{
    let mut types = Vec::new(alloc);
    for operand in operands {
        types.push(operand.ty)?;
    }
    match result_type(op, types.as_slice(), integers) {
        Ok(ty) => Ok(ty),
        Err(_) => Ok(NO_TYPE),
    }
}

fn reads_of(alloc: Global, operands: &[Bound]) -> Result<Reads, MemoryOut>
    ensures { IfOk result (λ rs. rs ≡ map (λ b. b.read) operands.now) }
{
    let mut reads = Reads::new(alloc);
    for operand in operands {
        reads.push(operand.read)?;
    }
    Ok(reads)
}

/// Adds an operation on two operands that gives one bit.
pub fn add_test(
    alloc: Global,
    net: &mut NetNodes,
    op: PrimOp,
    a: Bound,
    b: Bound,
) -> Result<Bound, MemoryOut>
    requires first { IsBelow (length net.old) a.read }
    requires second { IsBelow (length net.old) b.read }
    ensures grown { IfOk result (Grown net.old net.new) }
    ensures stands { IfOk result (TestStands net.old net.new op a b) }
{
    let mut reads = Reads::new(alloc);
    reads.push(a.read)?;
    reads.push(b.read)?;
    let ty = NumTy {
        signed: false,
        width: 1,
    };
    let operation = Operation {
        op,
        reads,
        integers: Seq::from_vec(Vec::new(alloc)),
        signed: ty.signed,
        width: ty.width,
    };
    Ok(add_node(net, Node::Operation(operation), ty)?)
}

/// Adds the choice of `a` where the condition `c` is 1, and of `b` where it is 0.
pub fn add_choice(net: &mut NetNodes, c: Bound, a: Bound, b: Bound) -> Result<Bound, MemoryOut>
    requires condition { IsBelow (length net.old) c.read }
    requires first { IsBelow (length net.old) a.read }
    requires second { IsBelow (length net.old) b.read }
    ensures grown { IfOk result (Grown net.old net.new) }
    ensures stands { IfOk result (ChoiceStands net.old net.new c a b) }
{
    let ty = NumTy {
        signed: a.ty.signed,
        width: a.ty.width.max(b.ty.width),
    };
    let mux = Mux {
        reads: [c.read, a.read, b.read],
        signed: ty.signed,
        width: ty.width,
    };
    Ok(add_node(net, Node::Mux(mux), ty)?)
}

/// Adds the choice of `a` where the condition `c` is 1, and of `b` where it is 0, as a value of the type.
pub fn add_mux(net: &mut NetNodes, c: Read, a: Read, b: Read, ty: NumTy) -> Result<Bound, MemoryOut>
    requires condition { IsBelow (length net.old) c }
    requires first { IsBelow (length net.old) a }
    requires second { IsBelow (length net.old) b }
    ensures grown { IfOk result (Grown net.old net.new) }
    ensures stands { IfOk result (MuxStands net.old net.new c a b ty) }
{
    let mux = Mux {
        reads: [c, a, b],
        signed: ty.signed,
        width: ty.width,
    };
    Ok(add_node(net, Node::Mux(mux), ty)?)
}

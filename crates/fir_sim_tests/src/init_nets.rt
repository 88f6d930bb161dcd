//! Small nets of registers with inits, one of them a word of an array.

ghost use Rattle.std.specs.Prelude.{◌≡◌, ◌<◌, ◌≤◌, ◌^◌, [], ◌∷◌, map, IfOk, None, Some, false};
ghost use Rattle.fir_net.specs.declared.node.Node.{Node};
ghost use Rattle.fir_net.specs.declared.reads.Read.{Read};
ghost use Rattle.fir_net.specs.declared.leaf.Role.{Role};
ghost use Rattle.fir_net.specs.working.IsNet.{IsNet};

use fir_ast::{LeafId, NodeId, Place};
use fir_base::{MemoryOut, Name, Seq};
use fir_bits::{Bits, Num, PrimOp};
use fir_net::{
    Array, ArrayRead, ArrayWrite, FlatNet, Leaf, Mux, Node, Operation, Read, Reads, Register,
    Reset, ResetKind, Role,
};
use std::alloc::Global;

/// The name of a leaf, the line where it is declared, its width and its role.
pub type Row = (u8, u32, u32, Role);

/// How a register of the nets varies: the line where it is declared, and when its reset takes effect.
#[derive(Clone, Copy)]
pub struct Varied {
    pub line: u32,
    pub kind: ResetKind,
}

/// Four registers: x takes a literal through an operator and wires, m a mux of constants, a what hangs on the input i
/// by two ways, and b itself.
pub fn registers(
    alloc: Global,
    x: Varied,
    m: Varied,
    a: Varied,
    b: Varied,
) -> Result<FlatNet, MemoryOut>
    ensures { IfOk result (λ n. IsNet n) }
{
    net(
        alloc,
        &[
            (b'k', 1, 1, Role::Clock),
            (b'r', 1, 1, Role::Input),
            (b'i', 1, 4, Role::Input),
            (b'x', x.line, 2, register(x.kind, leaf(7))),
            (b'm', m.line, 4, register(m.kind, node(3))),
            (b'a', a.line, 4, register(a.kind, node(4))),
            (b'b', b.line, 4, register(b.kind, leaf(6))),
            (b'p', 1, 4, Role::Wire(node(1))),
            (b'q', 1, 4, Role::Wire(node(0))),
            (b'v', 1, 4, Role::Wire(leaf(10))),
            (b'w', 1, 4, Role::Wire(leaf(2))),
        ],
        nodes(alloc)?,
        vec![in alloc;
            LeafId::new(3),
            LeafId::new(4),
            LeafId::new(5),
            LeafId::new(6),
        ]?,
        Vec::new(alloc),
        Vec::new(alloc),
    )
}

/// A register whose init is a wire of a ring.
pub fn ring(alloc: Global) -> Result<FlatNet, MemoryOut>
    ensures { IfOk result (λ n. IsNet n) }
{
    net(
        alloc,
        &[
            (b'k', 1, 1, Role::Clock),
            (b'r', 1, 1, Role::Input),
            (b'z', 2, 4, register(ResetKind::Asynchronous, leaf(3))),
            (b'u', 1, 4, Role::Wire(leaf(4))),
            (b'v', 1, 4, Role::Wire(leaf(3))),
        ],
        Vec::new(alloc),
        vec![in alloc; LeafId::new(2)]?,
        Vec::new(alloc),
        Vec::new(alloc),
    )
}

/// A register whose init is a wire of a word of an array. What is read is written back.
pub fn word(alloc: Global) -> Result<FlatNet, MemoryOut>
    ensures { IfOk result (λ n. IsNet n) }
{
    net(
        alloc,
        &[
            (b'k', 1, 1, Role::Clock),
            (b'r', 1, 1, Role::Input),
            (b'z', 2, 4, register(ResetKind::Asynchronous, leaf(3))),
            (b'u', 1, 4, Role::Wire(leaf(4))),
            (b'd', 1, 4, Role::Reading(reading())),
            (b'a', 1, 1, Role::Wire(leaf(1))),
        ],
        Vec::new(alloc),
        vec![in alloc; LeafId::new(2)]?,
        vec![in alloc; array(alloc)?]?,
        vec![in alloc; 0]?,
    )
}

/// What the leaf d reads: the word at the address a, while r is 1.
fn reading() -> ArrayRead
    ensures { result ≡ record { array = 0; address = Read.Leaf 5; enable = Read.Leaf 1 } }
{
    ArrayRead {
        array: 0,
        address: leaf(5),
        enable: leaf(1),
    }
}

/// Two words, of which the one at the address a takes what the leaf d reads.
fn array(alloc: Global) -> Result<Array, MemoryOut>
    ensures { IfOk result (λ a. a ≡ record { path = 109 ∷ []; signed = false; width = 4; words = 2; writes = record { clock = 0; condition = Read.Leaf 1; address = Read.Leaf 5; given = Read.Leaf 4 } ∷ [] }) }
{
    let write = ArrayWrite {
        clock: LeafId::new(0),
        condition: leaf(1),
        address: leaf(5),
        given: leaf(4),
    };
    Ok(Array {
        path: Name::new(alloc, b"m")?,
        signed: false,
        width: 4,
        words: 2,
        writes: Seq::from_vec(vec![in alloc; write]?),
    })
}

/// The literals 9 and 1, what negates the wire q, a mux of them, and what joins the wires v and w.
fn nodes(alloc: Global) -> Result<Vec<Node>, MemoryOut>
    ensures { IfOk result (λ v. v.items ≡ Node.Literal (record { signed = false; value = record { width = 4; number = 9 } }) ∷ Node.Operation (record { op = PrimOp.Not; reads = Read.Leaf 8 ∷ []; integers = []; signed = false; width = 4 }) ∷ Node.Literal (record { signed = false; value = record { width = 1; number = 1 } }) ∷ Node.Mux (record { reads = Read.Node 2 ∷ Read.Leaf 7 ∷ Read.Node 0 ∷ []; signed = false; width = 4 }) ∷ Node.Operation (record { op = PrimOp.And; reads = Read.Leaf 9 ∷ Read.Leaf 10 ∷ []; integers = []; signed = false; width = 4 }) ∷ []) }
{
    let negated = operation(PrimOp::Not, one_read(alloc, leaf(8))?, alloc);
    let joined = operation(PrimOp::And, two_reads(alloc, leaf(9), leaf(10))?, alloc);
    Ok(vec![in alloc; literal(4, 0x9), negated, literal(1, 1), choice(), joined]?)
}

fn literal(width: u32, number: u128) -> Node
    requires narrow { width ≤ 128 }
    requires below { number < 2 ^ width }
    ensures { result ≡ Node.Literal (record { signed = false; value = record { width = width; number = number } }) }
{
    Node::Literal(Num {
        signed: false,
        value: Bits::of(width, number),
    })
}

fn one_read(alloc: Global, read: Read) -> Result<Reads, MemoryOut>
    ensures { IfOk result (λ r. r ≡ read ∷ []) }
{
    let mut reads = Reads::new(alloc);
    reads.push(read)?;
    Ok(reads)
}

fn two_reads(alloc: Global, first: Read, second: Read) -> Result<Reads, MemoryOut>
    ensures { IfOk result (λ r. r ≡ first ∷ second ∷ []) }
{
    let mut reads = one_read(alloc, first)?;
    reads.push(second)?;
    Ok(reads)
}

fn operation(op: PrimOp, reads: Reads, alloc: Global) -> Node
    ensures { result ≡ Node.Operation (record { op = op; reads = reads; integers = []; signed = false; width = 4 }) }
{
    Node::Operation(Operation {
        op,
        reads,
        integers: Seq::from_vec(Vec::new(alloc)),
        signed: false,
        width: 4,
    })
}

/// The wire p where the third node is 1, else the first node.
fn choice() -> Node
    ensures { result ≡ Node.Mux (record { reads = Read.Node 2 ∷ Read.Leaf 7 ∷ Read.Node 0 ∷ []; signed = false; width = 4 }) }
{
    Node::Mux(Mux {
        reads: [node(2), leaf(7), node(0)],
        signed: false,
        width: 4,
    })
}

pub fn leaf(number: usize) -> Read
    ensures { result ≡ Read.Leaf number }
{
    Read::Leaf(LeafId::new(number))
}

fn node(number: usize) -> Read
    ensures { result ≡ Read.Node number }
{
    Read::Node(NodeId::new(number))
}

/// A register that is reset while the second leaf is 1.
fn register(kind: ResetKind, init: Read) -> Role
    ensures { result ≡ Role.Register (record { clock = 0; reset = Some (record { kind = kind; condition = Read.Leaf 1; init = init }); next = None }) }
{
    Role::Register(Register {
        clock: LeafId::new(0),
        reset: Some(Reset {
            kind,
            condition: leaf(1),
            init,
        }),
        next: None,
    })
}

pub fn net(
    alloc: Global,
    rows: &[Row],
    nodes: Vec<Node>,
    state: Vec<LeafId>,
    arrays: Vec<Array>,
    array_order: Vec<usize>,
) -> Result<FlatNet, MemoryOut>
    ensures { IfOk result (λ n. n ≡ record { name = 110 ∷ []; leaves = map (λ t. record { path = t.0 ∷ []; place = record { line = t.1; col = 1 }; signed = false; width = t.2; role = t.3 }) rows.now; nodes = nodes.items; state = state.items; arrays = arrays.items; array_order = array_order.items }) }
{
    let name = Name::new(alloc, b"n")?;
    let mut leaves = Vec::new(alloc);
    for &(name, line, width, role) in rows {
        let path = Name::new(alloc, &[name])?;
        leaves.push(Leaf {
            path,
            place: Place { line, col: 1 },
            signed: false,
            width,
            role,
        })?;
    }
    Ok(FlatNet {
        name,
        leaves: Seq::from_vec(leaves),
        nodes: Seq::from_vec(nodes),
        state: Seq::from_vec(state),
        arrays: Seq::from_vec(arrays),
        array_order: Seq::from_vec(array_order),
    })
}

//! A small net.

ghost use Rattle.std.specs.Prelude.{◌≡◌, [], ◌∷◌, map, IfOk, Some, true, false};
ghost use Rattle.fir_net.specs.declared.node.Node.{Node};
ghost use Rattle.fir_net.specs.declared.reads.Read.{Read};
ghost use Rattle.fir_net.specs.working.IsNet.{IsNet};
ghost use Rattle.fir_net.specs.working.Settled.{shape};

use fir_ast::{LeafId, NodeId, Place};
use fir_base::{MemoryOut, Name, Seq};
use fir_bits::{Bits, Num};
use fir_net::{FlatNet, Leaf, Node, Read, Register, Reset, ResetKind, Role};
use std::alloc::Global;

/// The name of a leaf, whether it is signed, its width and its role.
type Row = (u8, bool, u32, Role);

/// A net of registers with a synchronous and an asynchronous reset, and of one without a clock.
pub fn resets(alloc: Global) -> Result<FlatNet, MemoryOut>
    ensures whole { IfOk result (λ n. IsNet n) }
    ensures shape { IfOk result (λ n. shape n ≡ record { inputs = 1 ∷ 4 ∷ []; clocks = 1; state = 4 ∷ 4 ∷ 4 ∷ [] }) }
{
    let synchronous = Some(reset(ResetKind::Synchronous));
    let asynchronous = Some(reset(ResetKind::Asynchronous));
    let literal = Node::Literal(Num {
        signed: false,
        value: Bits::of(4, 0x9),
    });
    net(
        alloc,
        &[
            (b'k', false, 1, Role::Clock),
            (b'r', false, 1, Role::Input),
            (b'a', false, 4, Role::Input),
            (b's', false, 4, Role::Output(leaf(6))),
            (b't', false, 4, Role::Output(leaf(7))),
            (b'u', false, 4, Role::Output(leaf(8))),
            (
                b'x',
                false,
                4,
                Role::Register(register(9, synchronous, leaf(2))),
            ),
            (
                b'y',
                false,
                4,
                Role::Register(register(0, asynchronous, leaf(2))),
            ),
            (b'z', false, 4, Role::Register(register(10, None, leaf(2)))),
            (b'l', false, 1, Role::ClockWire(Some(LeafId::new(0)))),
            (b'm', false, 1, Role::ClockWire(None)),
        ],
        vec![in alloc; literal]?,
        vec![in alloc; LeafId::new(6), LeafId::new(7), LeafId::new(8)]?,
    )
}

fn leaf(number: usize) -> Read
    ensures { result ≡ Read.Leaf number }
{
    Read::Leaf(LeafId::new(number))
}

fn node(number: usize) -> Read
    ensures { result ≡ Read.Node number }
{
    Read::Node(NodeId::new(number))
}

fn register(clock: usize, reset: Option<Reset>, next: Read) -> Register
    ensures { result ≡ record { clock = clock; reset = reset; next = Some next } }
{
    Register {
        clock: LeafId::new(clock),
        reset,
        next: Some(next),
    }
}

/// A reset to the first node while the second leaf is 1.
fn reset(kind: ResetKind) -> Reset
    ensures { result ≡ record { kind = kind; condition = Read.Leaf 1; init = Read.Node 0 } }
{
    Reset {
        kind,
        condition: leaf(1),
        init: node(0),
    }
}

fn net(
    alloc: Global,
    rows: &[Row],
    nodes: Vec<Node>,
    state: Vec<LeafId>,
) -> Result<FlatNet, MemoryOut>
    ensures { IfOk result (λ n. n ≡ record { name = 110 ∷ []; leaves = map (λ t. record { path = t.0 ∷ []; place = record { line = 1; col = 1 }; signed = t.1; width = t.2; role = t.3 }) rows.now; nodes = nodes.items; state = state.items; arrays = []; array_order = [] }) }
{
    let name = Name::new(alloc, b"n")?;
    let mut leaves = Vec::new(alloc);
    for &(name, signed, width, role) in rows {
        let path = Name::new(alloc, &[name])?;
        let place = Place { line: 1, col: 1 };
        leaves.push(Leaf {
            path,
            place,
            signed,
            width,
            role,
        })?;
    }
    Ok(FlatNet {
        name,
        leaves: Seq::from_vec(leaves),
        nodes: Seq::from_vec(nodes),
        state: Seq::from_vec(state),
        arrays: Seq::from_vec(Vec::new(alloc)),
        array_order: Seq::from_vec(Vec::new(alloc)),
    })
}

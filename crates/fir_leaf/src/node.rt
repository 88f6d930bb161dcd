//! Terms as nodes, of which each names earlier ones by their places in a list.

ghost use Rattle.std.specs.Prelude.{◌≡◌, ◌++◌, [], ◌∷◌, IfOk, OnOk, length};

use fir_ast::{Literal, Place};
use fir_base::MemoryOut;
use fir_bits::PrimOp;

/// A term, or an index behind which a leaf is read or driven.
#[derive(Drop)]
pub enum Node {
    /// What `is invalid` drives.
    Zeros,
    /// A leaf of an element of a vector that has none: its signedness and its width in bits, and the last of
    /// the indices that lead there.
    Absent(bool, u128, Option<usize>),
    Literal(Literal),
    /// The leaf of that number, or the one that the indices up to this pick, counted from it.
    Read(usize, Option<usize>),
    Pick(Pick),
    /// An operation on operands and integers.
    Operation(PrimOp, Vec<usize>, Vec<u128>),
    /// The condition, the value where it is 1, and the other.
    Mux(usize, usize, usize),
    /// The condition and the value.
    Validif(usize, usize),
}

/// A dynamic index.
#[derive(Clone, Copy)]
pub struct Pick {
    /// The index before it.
    pub before: Option<usize>,
    /// Where its expression stands.
    pub place: Place,
    /// The node of its expression.
    pub index: usize,
    /// How many elements there are.
    pub length: u128,
    /// How many leaves apart they are.
    pub stride: u64,
}

/// Puts a node behind the others, and tells its place.
pub fn add(nodes: &mut Vec<Node>, node: Node) -> Result<usize, MemoryOut>
    ensures place { IfOk result (λ id. id ≡ length nodes.old.items) }
    ensures added { OnOk result (nodes.new.items ≡ nodes.old.items ++ node ∷ []) }
{
    let id = nodes.len();
    nodes.push(node)?;
    Ok(id)
}

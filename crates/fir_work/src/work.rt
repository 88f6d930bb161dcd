//! What is done with the numbers of operands.

use crate::signed::SignedWork;

/// What a task makes of the numbers of its operands: the first, the second and the third. What is computed
/// wraps at 128 bits, and a truth is 1 or 0.
#[derive(Clone, Copy)]
pub(crate) enum Work {
    /// This number.
    Literal(u128),
    /// The first.
    Operand,
    /// The bits of the first from bit `low` on that are in the mask.
    Field {
        low: u32,
        mask: u128,
    },
    /// The first shifted up by that many bits.
    Shift(u32),
    /// The first shifted up by that many bits, and in these the second.
    Join(u32),
    /// The mask less the first.
    Turn(u128),
    /// The bits that both have.
    And,
    /// The bits that one of both has.
    Or,
    /// The bits that just one of both has.
    Xor,
    /// The first and the second together.
    Sum,
    /// The bits of the first less the second that are in the mask.
    Difference(u128),
    /// The first times the second.
    Product,
    /// The first divided by the second, or 0 where the second is 0.
    Quotient,
    /// What that division leaves, or 0 where the second is 0.
    Remainder,
    /// The first shifted up by the second.
    Up,
    /// The first shifted down by the second.
    Down,
    /// Whether the first is below the second.
    Below,
    /// Whether it is at most the second.
    AtMost,
    /// Whether it is above the second.
    Above,
    /// Whether it is at least the second.
    AtLeast,
    /// Whether both are one number.
    Same,
    /// Whether they are two.
    Differ,
    /// Whether the first has a bit.
    Any,
    /// Whether it has all bits of the mask.
    All(u128),
    /// Whether it has an odd number of bits.
    Parity,
    /// The first, with `fill` added where it has a bit from bit `top` on.
    Extend {
        top: u32,
        fill: u128,
    },
    /// What is made of the first and the second as signed numbers whose top bits are these.
    Signed {
        work: SignedWork,
        first: u32,
        second: u32,
        mask: u128,
    },
    /// The second where the first is 1, else the third.
    Choose,
    /// Where the first is 1, the second, of `width` bits, at the width `to`: extended by its sign, or cut;
    /// else the third.
    Show {
        signed: bool,
        width: u32,
        to: u32,
    },
    /// What the node of that number computes.
    Node(usize),
}

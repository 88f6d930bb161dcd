//! Operands, with nets by number (IEEE 1364-2005, 5.1.14, 5.2.1).

ghost use Rattle.std.specs.Prelude.{◌≡◌};
ghost use Rattle.ver_sim.specs.working.Operands.{operand_number};

use crate::numbers::at;
use crate::piece::{Piece, number_of_pieces};

/// An operand: short forms for a whole net and for a constant, and for all others what stands side by side in it.
pub enum Operand {
    /// The value of a net.
    Net(usize),
    /// A number.
    Constant(u128),
    /// Pieces, the first at the high end.
    Pieces(Vec<Piece>),
}

// Not derived, so that a drop is a call, which is proved once.
impl Drop for Operand {
    fn drop(self) {
        match self {
            Operand::Net(_) | Operand::Constant(_) | Operand::Pieces(_) => {}
        }
    }
}

/// The number of an operand.
#[inline]
pub fn number_of(operand: &Operand, values: &[u128]) -> u128
    ensures { result ≡ operand_number values.now operand.now }
{
    match operand {
        Operand::Net(net) => at(values, *net),
        Operand::Constant(number) => *number,
        Operand::Pieces(pieces) => number_of_pieces(pieces.as_slice(), values),
    }
}

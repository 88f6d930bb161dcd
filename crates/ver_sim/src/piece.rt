//! Parts of operands, which stand beside each other.

ghost use Rattle.std.specs.Prelude.{◌≡◌, ◌+◌, ◌*◌, ◌%◌, ◌^◌};
ghost use Rattle.ver_sim.specs.working.Pieces.{piece_number, piece_width, pieces_number};

use crate::numbers::{at, low_bits, shifted_down, shifted_up};

/// A part of an operand, with its width in bits.
#[derive(Clone, Copy)]
pub enum Piece {
    /// The bits of a net from bit `low` on.
    Part { net: usize, low: u32, width: u32 },
    /// A number.
    Number { number: u128, width: u32 },
}

/// The number of a piece.
#[inline]
fn number_of(piece: &Piece, values: &[u128]) -> u128
    ensures { result ≡ piece_number values.now piece.now }
{
    match *piece {
        Piece::Part { net, low, width } => low_bits(
            shifted_down(at(values, net), u128::from(low)),
            width,
        ),
        Piece::Number { number, width: _ } => number,
    }
}

/// The width of a piece in bits.
#[inline]
pub fn width_of(piece: &Piece) -> u32
    ensures { result ≡ piece_width piece.now }
{
    match *piece {
        Piece::Part {
            net: _,
            low: _,
            width,
        } => width,
        Piece::Number { number: _, width } => width,
    }
}

/// A number with another of that width behind it, cut to 128 bits.
#[inline]
fn joined(before: u128, width: u32, number: u128) -> u128
    ensures { result ≡ (before * 2 ^ width + number) % 2 ^ 128 }
{
    shifted_up(before, u128::from(width)).wrapping_add(number)
}

/// The number of pieces beside each other, the first at the high end, cut to 128 bits.
pub fn number_of_pieces(pieces: &[Piece], values: &[u128]) -> u128
    ensures { result ≡ pieces_number values.now pieces.now 0 }
{
    let mut number = 0;
    for piece in pieces {
        number = joined(number, width_of(piece), number_of(piece, values));
    }
    number
}

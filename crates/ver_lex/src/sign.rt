//! Signs (IEEE 1364-2005, 3.4).

ghost use Rattle.std.specs.Prelude.{◌≡◌, ◌≤◌, length, drop, slice_index};
ghost use Rattle.ver_lex.specs.working.Fronts.{sign_front};

use crate::byte::{is_double, is_sign};
use crate::kind::Kind;
use crate::piece::Piece;

/// The longest sign at the front.
pub fn read_sign(bytes: &[u8]) -> Piece
    requires { 1 ≤ length bytes.now }
    ensures { result ≡ sign_front bytes.now }
{
    if bytes.starts_with(b">>>") {
        Piece::Token(Kind::SignedShift, 3)
    } else if 2 <= bytes.len() && is_double(bytes[0], bytes[1]) {
        Piece::Token(Kind::Double, 2)
    } else if is_sign(bytes[0]) {
        Piece::Token(Kind::Sign, 1)
    } else {
        Piece::Nothing
    }
}

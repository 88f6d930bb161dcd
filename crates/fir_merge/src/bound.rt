//! Where a value is in a net, and its type.

use fir_bits::NumTy;
use fir_net::Read;

/// A leaf or a node, with its type.
#[derive(Clone, Copy)]
pub struct Bound {
    pub read: Read,
    pub ty: NumTy,
}

//! The leaves that a reference names.

use fir_types::Found;

/// The leaves of a type from that of a number on, or, behind dynamic indices, those that these pick.
#[derive(Clone, Copy)]
pub struct Target {
    /// The number of the first leaf, where each index picks the first element; none behind an index into a
    /// vector without elements.
    pub base: Option<usize>,
    /// The node of the last index.
    pub picks: Option<usize>,
    pub found: Found,
}

//! Places in a text.

/// A line and a column, both from 1; columns count bytes.
#[derive(Clone, Copy)]
pub struct VPlace {
    pub line: u32,
    pub col: u32,
}

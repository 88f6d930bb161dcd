//! The direction of a port.

/// Which way a port goes, seen from inside the module.
#[derive(Clone, Copy, PartialEq, Eq)]
pub enum Direction {
    Input,
    Output,
}

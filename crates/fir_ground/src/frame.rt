//! What stands round the statements of a module.

use crate::ground::Ground;
use fir_names::Names;

/// The types and leaves of a module, what it declares, and which of its leaves may be driven.
#[derive(Clone, Copy)]
pub struct Frame<'a> {
    pub ground: Ground<'a>,
    pub names: &'a Names,
    /// Of each leaf, by its number, whether it may be driven.
    pub sinks: &'a [bool],
}

//! Leaves and expressions that are joined, as far as resets go.

/// What a leaf or an expression is, as far as resets go.
#[derive(Clone, Copy)]
pub enum Kind {
    /// None of the others.
    Other,
    /// A UInt.
    Unsigned,
    /// An AsyncReset.
    Asynchronous,
    /// A Reset, which is to be found asynchronous or not.
    Reset,
}

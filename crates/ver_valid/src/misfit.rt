//! Why a tree is not valid.

/// The kinds of fault of a tree.
#[derive(Clone, Copy)]
pub enum Misfit {
    /// A name is not declared before it is used.
    Undeclared,
    /// A width or a kind is not what it has to be.
    Unfit,
    /// A name is declared, or driven, a second time.
    Twice,
    /// A wire or an output has no driver.
    Undriven,
    /// What some net is made of comes back to it.
    Circular,
}

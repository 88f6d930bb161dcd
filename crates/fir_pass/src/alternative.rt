//! What is one of two.

/// A fault of the first of two passes, or of the second.
#[derive(Drop)]
pub enum Either<A, B> {
    One(A),
    Two(B),
}

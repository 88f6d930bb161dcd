//! How much is read of a file.

/// The most bytes of a file that are taken.
pub const LIMIT: u64 = 16777216;

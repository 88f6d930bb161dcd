//! What a port carries (IEEE 1364-2005, 12.3.3).

/// What a port carries.
#[derive(Clone, Copy)]
pub enum Signal {
    /// A value of so many bits.
    Bits(u32),
    /// A clock, which is marked `(* clock *)` and has no range.
    Clock,
}

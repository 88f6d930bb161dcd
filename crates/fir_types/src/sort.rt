//! The sort of a type.

/// A ground type without its width, or that a type is a bundle or a vector (FIRRTL spec, "Types").
#[derive(Clone, Copy)]
pub enum Sort {
    UInt,
    SInt,
    Clock,
    Reset,
    AsyncReset,
    Bundle,
    Vector,
}

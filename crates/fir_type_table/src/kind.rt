//! What a type is made of.

/// The number of a type in its table.
#[derive(Clone, Copy)]
pub struct TypeId {
    pub(crate) number: usize,
}

impl TypeId {
    /// A UInt without a width, in every table.
    pub const UINT: TypeId = TypeId { number: 0 };

    /// An SInt without a width.
    pub const SINT: TypeId = TypeId { number: 1 };

    pub const CLOCK: TypeId = TypeId { number: 2 };

    pub const RESET: TypeId = TypeId { number: 3 };

    pub const ASYNC_RESET: TypeId = TypeId { number: 4 };

    /// A UInt of one bit.
    pub const BIT: TypeId = TypeId { number: 5 };
}

/// A type, without the fields of a bundle (FIRRTL spec, "Types"). A width that is not written is
/// None.
#[derive(Clone, Copy)]
pub enum Kind {
    UInt(Option<u128>),
    SInt(Option<u128>),
    Clock,
    Reset,
    AsyncReset,
    Bundle,
    /// The type of the elements, and how many there are.
    Vector(TypeId, u128),
}

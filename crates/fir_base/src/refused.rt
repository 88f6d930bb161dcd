//! How a call that grows or judges ends where it is not Ok.

use std::alloc::{AllocError, AllocFailed};

/// Memory was wanted and not there. Nothing else is refused.
#[derive(Clone, Copy, Debug)]
pub struct MemoryOut;

impl From<AllocError> for MemoryOut {
    fn from(_error: AllocError) -> MemoryOut {
        MemoryOut
    }
}

impl<T: Drop> From<AllocFailed<T>> for MemoryOut {
    fn from(_error: AllocFailed<T>) -> MemoryOut {
        MemoryOut
    }
}

/// A fault of what was given, or want of memory.
#[derive(Clone, Copy, Debug, Drop)]
pub enum Refused<F> {
    Fault(F),
    Memory,
}

impl<F> From<MemoryOut> for Refused<F> {
    ghost use Rattle.std.specs.Prelude.{◌≡◌};
    ghost use Rattle.fir_base.specs.declared.refused.Refused.TheVariants.{Memory};

    ghost from_gives = { λ _ e. e ≡ Memory };

    fn from(_error: MemoryOut) -> Refused<F> {
        Refused::Memory
    }
}

impl<F> From<AllocError> for Refused<F> {
    ghost use Rattle.std.specs.Prelude.{◌≡◌};
    ghost use Rattle.fir_base.specs.declared.refused.Refused.TheVariants.{Memory};

    ghost from_gives = { λ _ e. e ≡ Memory };

    fn from(_error: AllocError) -> Refused<F> {
        Refused::Memory
    }
}

impl<F, T: Drop> From<AllocFailed<T>> for Refused<F> {
    ghost use Rattle.std.specs.Prelude.{◌≡◌};
    ghost use Rattle.fir_base.specs.declared.refused.Refused.TheVariants.{Memory};

    ghost from_gives = { λ _ e. e ≡ Memory };

    fn from(_error: AllocFailed<T>) -> Refused<F> {
        Refused::Memory
    }
}

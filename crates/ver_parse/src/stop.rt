//! Why the parser stops.

use fir_base::MemoryOut;
use std::alloc::{AllocError, AllocFailed};
use ver_ast::VPlace;

/// Why nothing was read.
#[derive(Clone, Copy)]
pub enum Stop {
    /// The text ends where something is expected.
    AtEnd,
    /// The token at the place is not expected.
    Syntax(VPlace),
    /// The brace at the place is the 257th that is open.
    Depth(VPlace),
    Memory,
}

impl From<MemoryOut> for Stop {
    ghost use Rattle.std.specs.Prelude.{◌≡◌};
    ghost use Rattle.ver_parse.specs.declared.stop.Stop.TheVariants.{Memory};

    ghost from_gives = { λ _ e. e ≡ Memory };

    fn from(_error: MemoryOut) -> Stop {
        Stop::Memory
    }
}

impl From<AllocError> for Stop {
    ghost use Rattle.std.specs.Prelude.{◌≡◌};
    ghost use Rattle.ver_parse.specs.declared.stop.Stop.TheVariants.{Memory};

    ghost from_gives = { λ _ e. e ≡ Memory };

    fn from(_error: AllocError) -> Stop {
        Stop::Memory
    }
}

impl<T: Drop> From<AllocFailed<T>> for Stop {
    ghost use Rattle.std.specs.Prelude.{◌≡◌};
    ghost use Rattle.ver_parse.specs.declared.stop.Stop.TheVariants.{Memory};

    ghost from_gives = { λ _ e. e ≡ Memory };

    fn from(_error: AllocFailed<T>) -> Stop {
        Stop::Memory
    }
}

//! A fault, with its place and its evidence.

use fir_base::{Name, Seq};
use ver_ast::VPlace;

/// A fault of a text in the Verilog subset. Places are lines and columns from 1, widths are in bits.
pub enum VerFault {
    /// V01: a byte that is in no token, or the first one of a block comment that is not closed (IEEE 1364-2005, 3).
    Byte {
        place: VPlace,
        byte: u8,
    },
    /// V02: the first token with which no text of the grammar goes on, or the end of the text (IEEE 1364-2005, Annex A).
    Syntax {
        place: VPlace,
    },
    /// V03: a name that is not yet declared (IEEE 1364-2005, 4.5).
    Undeclared {
        place: VPlace,
        name: Name,
    },
    /// V04: something of the width `found` stands where one of the width `needed` is needed.
    Width {
        place: VPlace,
        needed: u32,
        found: u32,
    },
    /// V04: something of a kind that does not fit, or past a limit.
    Kind {
        place: VPlace,
    },
    /// V05: a second declaration or driver of a name, and the place of the first.
    Twice {
        place: VPlace,
        name: Name,
        first: VPlace,
    },
    /// V06: a closed walk of what depends on what. The walk has its first name again at its end.
    Loop {
        place: VPlace,
        walk: Seq<Name>,
    },
    /// V07: the 257th brace that is open.
    Depth {
        place: VPlace,
    },
    /// V08: a wire or an output that nothing drives.
    Undriven {
        place: VPlace,
        name: Name,
    },
}

// Not derived, so that a drop is a call, which is proved once.
impl Drop for VerFault {
    fn drop(self) {
        match self {
            VerFault::Byte { place: _, byte: _ }
            | VerFault::Syntax { place: _ }
            | VerFault::Undeclared { place: _, name: _ }
            | VerFault::Width {
                place: _,
                needed: _,
                found: _,
            }
            | VerFault::Kind { place: _ }
            | VerFault::Twice {
                place: _,
                name: _,
                first: _,
            }
            | VerFault::Loop { place: _, walk: _ }
            | VerFault::Depth { place: _ }
            | VerFault::Undriven { place: _, name: _ } => {}
        }
    }
}

impl VerFault {
    ghost use Rattle.std.specs.Prelude.{◌≡◌};
    ghost use Rattle.ver_fault.specs.View.{vfault_place};

    /// Where the fault stands.
    pub fn place(&self) -> VPlace
        ensures { result ≡ vfault_place self.now }
    {
        match self {
            VerFault::Byte { place, byte: _ }
            | VerFault::Syntax { place }
            | VerFault::Undeclared { place, name: _ }
            | VerFault::Width {
                place,
                needed: _,
                found: _,
            }
            | VerFault::Kind { place }
            | VerFault::Twice {
                place,
                name: _,
                first: _,
            }
            | VerFault::Loop { place, walk: _ }
            | VerFault::Depth { place }
            | VerFault::Undriven { place, name: _ } => *place,
        }
    }
}

//! The inits of registers with an asynchronous reset (FIRRTL spec, "Registers"). In comes a whole net; out comes the
//! first such register whose init reaches an input or a leaf that shows state, with a shortest walk to it (E27;
//! `init_fault`). Where there is none the inits are constants, which are found once, along an order of the net
//! (`init_values`). What a fault and a value are stands in specs/ (`ShowsInit`, `InitValues`).
//!
//! The registers in question are found first (`registers`). One search by breadth serves them all (`search`): what it
//! has met without finding anything it never looks at again. The values come from the numbers of all constants
//! (`constants`).
#![tactic(auto)]

mod constants;
mod fault;
mod registers;
mod search;
mod values;

pub use fault::init_fault;
pub use values::{InitValues, init_values};

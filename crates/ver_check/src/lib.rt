//! What is wrong with a tree of the Verilog subset, but for closed walks: in comes a tree with the places of its text; it
//! is refused for its first fault of V03, V04 and V05 in the order of the text, else of V08. What these faults are, and
//! where they stand, is in specs/: OperandFaults, SideFaults, ItemFaults, TreeFaults.
//! One walk goes over the ports and the items (`walk`), and judges each against what is declared (`scope`) and driven
//! (`drivers`) before it, operand by operand (`operand`, `side`, `block`), each at its places (ver_places).
//! `laws` has what that says of a whole tree: it has none of these faults, and an order of its processes, exactly where it
//! is valid, as `specs/Valid` of ver_ast has it.
#![tactic(auto)]

mod block;
mod drivers;
mod findings;
mod kind;
mod laws;
mod operand;
mod scope;
mod side;
mod walk;
mod whole;

pub use laws::{faultless_is_valid, valid_is_shallow};
pub use whole::check;

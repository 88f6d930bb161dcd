//! From a net to a Verilog tree. In come a whole net and an order of its leaves and nodes; out comes a valid
//! tree, named by the net's table of names, with its items arranged by kind and in the order of the net, which
//! allows at every tick what the net allows (`specs/`: NamedFor, Arranged, Built, Builds). Each operation has an
//! inner net and an assign, each output an assign, also one that is a clock, and each register that has a reset, or
//! that something drives on a clock, a block (`Blocks`; IEEE 1364-2005, 6.1, 9.2.2, 9.4, 12.1). Wires have no net:
//! what reads a wire reads what drives it, fitted to the wire's width (`Places`). A reset that is no net of one bit
//! has an inner net of its own. An array is read by nets of its own and written by a block, which let no address past
//! the end (`ArrayTexts`, `ArrayBlocks`; 4.9, 9.8.1).
#![tactic(auto)]

mod array_blocks;
mod array_texts;
mod atoms;
mod building;
mod clock_outputs;
mod held;
mod items;
mod laws;
mod leaf_places;
mod node_places;
mod places;
mod register_blocks;
mod reset_nets;
mod right_sides;
mod write_guards;

pub use building::build;
pub use laws::{built_has_any_places, names_are_for_rows};

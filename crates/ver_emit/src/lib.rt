//! Writes a tree of the Verilog subset as text. The text is the layout, a function of the tree; that it spells
//! the tree, and that no comment stands in it, are laws about the layout (IEEE 1364-2005, 3 and Annex A).
#![tactic(auto)]

mod atom;
mod block;
mod item;
mod laws;
mod operator;
mod range;
mod rhs;
mod writer;

pub use laws::{layout_has_no_comment, layout_is_spelled};
pub use writer::write_verilog;

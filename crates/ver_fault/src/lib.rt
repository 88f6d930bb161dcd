//! The faults of a text in the Verilog subset: what each one says (`fault`), and the line that is printed for it
//! (`line`). What the lines are stands in `specs/` (Faults, Texts).
#![tactic(auto)]

mod evidence;
mod fault;
mod line;
mod place;
mod walk;

pub use fault::VerFault;

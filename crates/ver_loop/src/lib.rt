//! Closed walks of what depends on what in a tree of the Verilog subset. In comes a tree without a fault of V03, V04, V05
//! and V08; it is refused for a closed walk, V06, or else some order of its processes has each once, after all that it
//! reads. What a closed walk is, and what the fault tells, is in specs/Loops; that a tree with one has no such
//! order is a law (`laws`).
//! The circle of processes that ver_valid finds (`loops`) has the names that they give values (`walk`), and stands where
//! the first of these gets its value (`giver`).
#![tactic(auto)]

mod giver;
mod laws;
mod loops;
mod walk;

pub use laws::loops_have_no_order;
pub use loops::check_loops;

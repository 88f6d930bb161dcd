//! The net of a circuit is run on a trace, tick by tick (`runner`). What is printed of the first ticks begins what the whole
//! trace prints (`fronts`).
#![tactic(auto)]

mod fronts;
mod runner;

pub use fronts::{SourceCircuits, fronts_begin};
pub use runner::Runner;

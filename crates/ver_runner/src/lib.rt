//! A Verilog tree is run on a trace, tick by tick (`runner`): by rounds of all its processes until nothing changes, or,
//! where a number is given, by the order for that number (`orders`), of which rounds are taken until a tick is settled
//! (`rounds`); each line then ends with how many were taken. What a line shows stands in rooms that are made once (`shown`).
#![tactic(auto)]

pub mod laws;
mod orders;
mod rounds;
mod runner;
mod shown;

pub use orders::round_for;
pub use runner::VRunner;

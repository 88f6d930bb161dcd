//! The simulator: the one run of a net. In comes a net with an order, the state before the first tick and then
//! tick after tick; out come the outputs of each tick and the state after it, which are those that the net allows
//! (`Allows` of fir_net). What a tick does step by step stands in fir_tick.
#![tactic(auto)]

mod sim;

pub use sim::Sim;

//! Tests of the whole program: `run` over files and sinks in memory, with a text or a trace for each kind of answer;
//! over those of which calls are to fail; and over those that never fail, where its contract leaves few statuses. What
//! else a text, a trace and the lines for them can say stands in checks/rows.
#![tactic(auto)]

mod sure;

pub use sure::sure_status;

#[cfg(test)]
mod compiles;
#[cfg(test)]
mod outcome;
#[cfg(test)]
mod runs;
#[cfg(test)]
mod verilog_runs;

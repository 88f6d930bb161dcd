//! Tests of crates at the bottom, of what only code can show: a crate with tests of its own is proved twice. Files and
//! sinks that fail (`outside`), a graph of one concrete type (`graphs`), the lines of faults that no text shows yet
//! (`fault_lines`), the judge of Verilog trees (`trees`); and of the reading of Verilog, which no command does yet, the tokens of
//! texts (`verilog_tokens`), the faults of trees (`verilog_trees`), closed walks in them (`verilog_loops`) and the lines of faults
//! (`verilog_fault_lines`). What a text and the lines for it can say stands in checks/rows.
#![tactic(auto)]

#[cfg(test)]
mod fault_lines;
#[cfg(test)]
mod graphs;
#[cfg(test)]
mod outside;
#[cfg(test)]
mod trees;
#[cfg(test)]
mod verilog_fault_lines;
#[cfg(test)]
mod verilog_loops;
#[cfg(test)]
mod verilog_tokens;
#[cfg(test)]
mod verilog_trees;

//! The simulator of a Verilog tree: the values of its nets by number, a task for each process, and steps in any
//! order. A tick takes one step of each process, in an order in which each stands behind those that drive what it reads.
#![tactic(auto)]

mod block_tasks;
mod blocks;
mod declarations;
mod drivers;
mod edge;
mod inputs;
mod lacking;
mod names;
mod numbers;
mod operand;
mod order;
mod outputs;
mod piece;
mod plan;
mod processes;
mod read;
mod shown;
mod signed;
mod sim;
mod start;
mod steps;
mod tables;
mod task;
mod traces;
mod unsettled;
mod work;

pub use sim::{NoValue, VSim};
pub use traces::shape;
pub use unsettled::NotYet;

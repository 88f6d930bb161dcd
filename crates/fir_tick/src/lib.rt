//! What a tick of a net does. A `Plan` tells where inputs, outputs, registers and clocks stand in the array of
//! `Values`, and the `steps` along an order of the net put the value of each leaf and node there, one after the other
//! (`settle`); then registers take theirs (`passes`), and arrays are written (`array_writes`), with what pipes take of
//! them before and after (`pipe_reads`). `start` has the values before the first tick. `shape` tells what the traces of a net are made of (specs/working/Shapes).
#![tactic(auto)]

mod array_reads;
mod array_words;
mod array_writes;
mod passes;
mod pipe_plans;
mod pipe_reads;
mod plan;
mod roots;
mod settle;
mod spans;
mod start;
mod steps;
mod trace_shape;
mod values;
mod write_plans;

pub use array_reads::WordRead;
pub use pipe_plans::PipePlan;
pub use plan::{InputPlan, OutputPlan, Plan, RegisterPlan, ResetPlan};
pub use spans::{ArraySpan, array_spans};
pub use start::{output_zeros, state_of, zeros};
pub use steps::{Step, StepWork, steps_of};
pub use trace_shape::shape;
pub use values::Values;
pub use write_plans::WritePlan;

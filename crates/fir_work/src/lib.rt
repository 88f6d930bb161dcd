//! The work of each leaf and node of a net, found once: where its operands stand among all numbers, and
//! what is done with them. In comes a net; out comes a `Task` for a node (`node_task`), for what is read at
//! a width (`fit_task`) and for a register under an asynchronous reset (`shown_task`), which gives the
//! number at each tick (`Task::run`). No call takes memory.
#![tactic(auto)]

mod fit_work;
mod general;
mod pair_work;
mod places;
mod signed;
mod single_work;
mod task;
mod tasks;
mod types;
mod usual;
mod work;

pub use places::place;
pub use task::{Task, number_at};
pub use tasks::{fit_task, node_task, shown_task};
pub use types::read_type;

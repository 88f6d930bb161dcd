//! The line that is printed for a fault (`fault_line`): its evidence (`evidence`), types (`type_text`), walks, places and
//! choices (`walk_text`) as text. What the texts are stands in fir_ast (`specs/`: Faults, Texts).
#![tactic(auto)]

mod evidence;
mod fault_line;
mod type_text;
mod walk_text;

pub use fault_line::put_fault_line;

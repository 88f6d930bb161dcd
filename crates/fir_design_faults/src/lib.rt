//! What faults of clocks (E25), of the clocks of memories (E26) and of loops (E28) are made of: what definitions over
//! numbered leaves say of them is what those by paths say (FIRRTL spec, "Clock Type", "Memories", "Instances", "Last
//! Connect Semantics"). Each law is the contract of a function that does nothing.
#![tactic(auto)]

mod clock_laws;
mod drive_laws;

pub use clock_laws::{
    clock_faults_stand_by_path, clocks_have_names_by_path, memory_clocks_stand_by_path,
    memory_faults_stand_by_path,
};
pub use drive_laws::live_reads_stand_by_path;

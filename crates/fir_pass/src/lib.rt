//! The law of passes. A pass takes a tree of one stage to the next: it keeps what the tree means, or
//! tells the first fault of its groups and hands back what it was given (`law`). Two passes in a row are
//! one (`compose`). What a tree means, in which groups faults are looked for, and what a pass keeps stands
//! in specs/ (Faults, Groups, Meaning, Law).
#![tactic(auto)]

mod alternative;
mod compose;
mod law;

pub use alternative::Either;
pub use compose::{Chain, then};
pub use law::{Meant, Pass};

//! Which leaves of a module statements drive under some choice, which they drive under every choice, and of one that
//! they may leave undriven the choice that is told (FIRRTL spec, "Initialization of Components"). In come the statements of a module over its leaves,
//! and how many whens stand round the declaration of each leaf. Here is also the walk over dynamic indices to the
//! leaves that they may pick (FIRRTL spec, "Sub-accesses").
#![tactic(auto)]

mod choice;
mod covered;
mod driven;
mod flags;
mod laws;
mod reached;

pub use choice::first_choice;
pub use covered::{covered_leaves, move_marked};
pub use driven::{driven_leaves, list_drive};
pub use flags::{depth_of, is_flagged, set_flag};
pub use laws::{covered_is_driven, missed_is_first};
pub use reached::{index_at, is_picked, reached_leaves};

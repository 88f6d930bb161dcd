//! What all commands share, whatever language they read: how a run ends (`status`), how much is read of a file (`limit`),
//! and the lines of the error output (`messages`). `specs/` has what may be said of the files and both outputs at a
//! moment (Outside), and those lines (Messages).
#![tactic(auto)]

mod limit;
mod messages;
mod status;

pub use limit::LIMIT;
pub use messages::{
    MEMORY_LINE, UNWRITTEN_LINE, USAGE_LINE, say, say_bad_line, say_lack, say_unread,
};
pub use status::Status;

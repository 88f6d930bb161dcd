//! The outside: files that are read and sinks that are written, as two traits whose contracts say
//! when each answer comes and what it leaves. Code over them is proved for every form: in memory with
//! planned faults (`MemFiles`, `MemSink`), in memory without fault (`SureFiles`, `SureSink`), and the
//! system's own (`OsFiles`, `OsSink`).
//!
//! An Ok read gives the whole content, of at most the limit, and an Ok put has written its whole piece.
//! `Failed` comes only where the count of faults rose, `TooLong` only where more bytes than the limit
//! were taken.
#![tactic(auto)]

mod content;
mod entry;
mod held;
mod mem_files;
mod mem_sink;
mod os_files;
mod os_sink;
mod planned;
mod ports;
mod sure_files;
mod sure_sink;

pub use entry::FileEntry;
pub use mem_files::MemFiles;
pub use mem_sink::MemSink;
pub use os_files::OsFiles;
pub use os_sink::OsSink;
pub use planned::{CallFault, FailingCall};
pub use ports::{FileFault, Files, PutFault, Sink};
pub use sure_files::SureFiles;
pub use sure_sink::SureSink;

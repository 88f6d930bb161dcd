//! A file in memory.

ghost use Rattle.std.specs.Prelude.{◌≡◌, IfOk};

use fir_base::{MemoryOut, Name, Seq};
use std::alloc::Global;

/// A file in memory.
#[derive(Drop)]
pub struct FileEntry {
    /// The name by which it is asked.
    pub name: Name,
    /// Its bytes.
    pub content: Seq<u8>,
}

impl FileEntry {
    /// A file of that name and content.
    pub fn new(alloc: Global, name: &str, content: &[u8]) -> Result<FileEntry, MemoryOut>
        ensures name { IfOk result (λ e. e.name ≡ name.now) }
        ensures content { IfOk result (λ e. e.content ≡ content.now) }
    {
        Ok(FileEntry {
            name: Name::new(alloc, name.as_bytes())?,
            content: Seq::from_vec(content.to_vec(alloc)?),
        })
    }
}

//! Files in memory, of which no read fails.

ghost use Rattle.std.specs.Prelude.{◌≡◌, List, ℕ, IsTrue, Some};
ghost use Rattle.fir_io.specs.working.Ports.{Reads};
ghost use Rattle.fir_io.specs.working.Sure.{sure_content, sure_files_seen, SureReads};

use crate::content::{content_of, read_content};
use crate::entry::FileEntry;
use crate::ports::{FileFault, Files};
use std::alloc::Global;
use std::marker::Model;

/// Files in memory, of which no read fails. A name without an entry is a file without content.
#[derive(Drop)]
pub struct SureFiles {
    entries: Vec<FileEntry>,
    taken: u64,
}

impl Model for SureFiles {
    ghost use Rattle.fir_io.specs.working.Sure.{SureFilesView};

    ghost Value = { SureFilesView };

    ghost view = { λ f. record { entries = f.entries.items; taken = f.taken } };
}

impl SureFiles {
    /// These files.
    pub fn new(entries: Vec<FileEntry>) -> SureFiles
        ensures value { result ≡ record { entries = entries.items; taken = 0 } }
        ensures may { (name : List ℕ) → IsTrue ((sure_files_seen result).may name) }
        ensures told { (name : List ℕ)
            → (sure_files_seen result).told name ≡ Some (sure_content entries.items name) }
    {
        SureFiles { entries, taken: 0 }
    }

    /// How many bytes were taken since the last read began.
    pub fn taken(&self) -> u64
        ensures { result ≡ self.now.taken }
    {
        self.taken
    }
}

impl Files for SureFiles {
    ghost seen = { sure_files_seen };

    fn read(&mut self, alloc: Global, name: &str, limit: u64) -> Result<Vec<u8>, FileFault>
        ensures reads { Reads limit name.now (sure_files_seen self.old) (sure_files_seen self.new) result }
        ensures answer { SureReads limit name.now self.old self.new result }
    {
        let content = content_of(self.entries.as_slice(), name.as_bytes()).unwrap_or(&[]);
        read_content(alloc, content, limit, &mut self.taken)
    }
}

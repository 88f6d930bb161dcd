//! Files in memory, of whose reads a list is to fail.

ghost use Rattle.std.specs.Prelude.{◌≡◌, List, ℕ, IsTrue};
ghost use Rattle.fir_io.specs.working.Memory.{content_of, mem_files_seen, MemReads};
ghost use Rattle.fir_io.specs.working.Ports.{Reads};

use crate::content::{content_of, read_content};
use crate::entry::FileEntry;
use crate::planned::{CallFault, FailingCall, planned_at};
use crate::ports::{FileFault, Files};
use std::alloc::Global;
use std::marker::Model;

/// Files in memory, of whose reads a list is to fail. A name without an entry is a missing file.
#[derive(Drop)]
pub struct MemFiles {
    entries: Vec<FileEntry>,
    failing: Vec<FailingCall>,
    calls: u64,
    taken: u64,
    faults: u64,
}

impl Model for MemFiles {
    ghost use Rattle.fir_io.specs.working.Memory.{MemFilesView};

    ghost Value = { MemFilesView };

    ghost view = { λ f. record {
      entries = f.entries.items;
      failing = f.failing.items;
      calls = f.calls;
      taken = f.taken;
      faults = f.faults;
    } };
}

impl MemFiles {
    /// These files, of whose reads those that the list names are to fail.
    pub fn new(entries: Vec<FileEntry>, failing: Vec<FailingCall>) -> MemFiles
        ensures value { result ≡ record {
          entries = entries.items;
          failing = failing.items;
          calls = 0;
          taken = 0;
          faults = 0;
        } }
        ensures may { (name : List ℕ) → IsTrue ((mem_files_seen result).may name) }
        ensures told { (name : List ℕ)
            → (mem_files_seen result).told name ≡ content_of entries.items name }
    {
        MemFiles {
            entries,
            failing,
            calls: 0,
            taken: 0,
            faults: 0,
        }
    }

    /// How many bytes were taken since the last read began.
    pub fn taken(&self) -> u64
        ensures { result ≡ self.now.taken }
    {
        self.taken
    }

    /// How many reads failed. The count stays at its greatest value.
    pub fn faults(&self) -> u64
        ensures { result ≡ self.now.faults }
    {
        self.faults
    }
}

impl Files for MemFiles {
    ghost seen = { mem_files_seen };

    fn read(&mut self, alloc: Global, name: &str, limit: u64) -> Result<Vec<u8>, FileFault>
        ensures reads { Reads limit name.now (mem_files_seen self.old) (mem_files_seen self.new) result }
        ensures answer { MemReads limit name.now self.old self.new result }
    {
        let fault = planned_at(self.failing.as_slice(), self.calls);
        self.calls = self.calls.saturating_add(1);
        self.taken = 0;
        match fault {
            Some(CallFault::Failed(taken)) => {
                self.taken = taken;
                self.faults = self.faults.saturating_add(1);
                Err(FileFault::Failed)
            }
            Some(CallFault::Memory) => Err(FileFault::Memory),
            None => match content_of(self.entries.as_slice(), name.as_bytes()) {
                Some(content) => read_content(alloc, content, limit, &mut self.taken),
                None => {
                    self.faults = self.faults.saturating_add(1);
                    Err(FileFault::Failed)
                }
            },
        }
    }
}

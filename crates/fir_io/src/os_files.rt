//! The files of the system.

ghost use Rattle.std.specs.Prelude.{◌≡◌, ◌≢◌, List, ℕ, IsTrue, None};
ghost use Rattle.fir_io.specs.working.Os.{os_files_seen, ReadsAll};
ghost use Rattle.fir_io.specs.working.Ports.{Reads};

use crate::ports::{FileFault, Files};
use std::alloc::Global;
use std::io::{ErrorKind, Read};
use std::{fs, io, rt};

/// The files of the system, by path. They tell nothing of what they hold.
#[derive(Drop)]
pub struct OsFiles<R> {
    runtime: R,
    taken: u64,
    faults: u64,
}

impl<R: rt::Files> OsFiles<R> {
    /// The files that this runtime opens.
    pub fn new(runtime: R) -> OsFiles<R>
        ensures may { (name : List ℕ) → IsTrue ((os_files_seen result).may name) }
        ensures told { (name : List ℕ) → (os_files_seen result).told name ≡ None }
        ensures taken { (os_files_seen result).taken ≡ 0 }
        ensures faults { (os_files_seen result).faults ≡ 0 }
    {
        OsFiles {
            runtime,
            taken: 0,
            faults: 0,
        }
    }
}

impl<R: rt::Files> Files for OsFiles<R> {
    ghost seen = { os_files_seen };

    fn read(&mut self, alloc: Global, name: &str, limit: u64) -> Result<Vec<u8>, FileFault>
        ensures { Reads limit name.now (os_files_seen self.old) (os_files_seen self.new) result }
    {
        self.taken = 0;
        match read_file(&self.runtime, alloc, name, limit, &mut self.taken) {
            Ok(content) => Ok(content),
            Err(FileFault::Failed) => {
                self.faults = self.faults.saturating_add(1);
                Err(FileFault::Failed)
            }
            Err(fault) => Err(fault),
        }
    }
}

/// Opens a file and reads it to the end.
fn read_file<R: rt::Files>(
    runtime: &R,
    alloc: Global,
    name: &str,
    limit: u64,
    taken: &mut u64,
) -> Result<Vec<u8>, FileFault>
    ensures { ReadsAll limit None taken.new result }
{
    match fs::open(runtime, name) {
        Ok(file) => read_all(alloc, file, limit, taken),
        Err(error) => Err(fault_of(&error)),
    }
}

/// Whether memory was wanted, or the system failed.
fn fault_of(error: &io::Error) -> FileFault
    ensures { result ≢ FileFault.TooLong }
{
    match error.kind() {
        ErrorKind::OutOfMemory => FileFault::Memory,
        _ => FileFault::Failed,
    }
}

/// Reads to the end, or to one byte more than the limit, and sets the count of bytes taken.
fn read_all<F: io::Read + Drop>(
    alloc: Global,
    file: F,
    limit: u64,
    taken: &mut u64,
) -> Result<Vec<u8>, FileFault>
    ensures { ReadsAll limit (F.remaining file) taken.new result }
{
    let mut content = Vec::new(alloc);
    let outcome = file.take(limit.saturating_add(1)).read_to_end(&mut content);
    *taken = content.len() as u64;
    match outcome {
        Ok(_) if content.len() as u64 <= limit => Ok(content),
        Ok(_) => Err(FileFault::TooLong),
        Err(error) => Err(fault_of(&error)),
    }
}

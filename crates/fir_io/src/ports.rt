//! The two traits of the outside, and how their calls fail.

ghost use Rattle.std.specs.Prelude.{IsTrue};
ghost use Rattle.fir_io.specs.Ports.{FilesSeen, SinkSeen};
ghost use Rattle.fir_io.specs.working.Ports.{Reads, Puts};

use std::alloc::Global;
use thiserror::Error;

/// Why a file was not read.
#[derive(Clone, Copy, Debug, Error)]
pub enum FileFault {
    /// The file is missing, or the outside gave an error.
    #[error("the read failed")]
    Failed,
    /// The file holds more bytes than the limit.
    #[error("the file is too long")]
    TooLong,
    /// Memory for the content was wanted and not there.
    #[error("out of memory")]
    Memory,
}

/// Why a piece was not written.
#[derive(Clone, Copy, Debug, PartialEq, Eq, Error)]
pub enum PutFault {
    /// The outside gave an error, or took nothing of a piece that is not empty.
    #[error("the write failed")]
    Failed,
    /// Memory for the piece was wanted and not there.
    #[error("out of memory")]
    Memory,
}

/// Files that are read whole, by name.
pub trait Files {
    ghost seen: { Self → FilesSeen };

    /// The whole content of the file of that name, of at most `limit` bytes. The name is one that may
    /// be asked.
    ///
    /// # Errors
    ///
    /// `Failed` where the count of faults rose, `TooLong` where more than `limit` bytes were taken,
    /// `Memory` for want of memory.
    fn read(&mut self, alloc: Global, name: &str, limit: u64) -> Result<Vec<u8>, FileFault>
        requires { IsTrue ((seen self.old).may name.now) }
        ensures { Reads limit name.now (seen self.old) (seen self.new) result };
}

/// What takes bytes, in pieces.
pub trait Sink {
    ghost seen: { Self → SinkSeen };

    /// Puts a piece behind what was put before. An empty piece is always taken.
    ///
    /// # Errors
    ///
    /// `Failed` where the count of faults rose: a prefix of the piece was put. `Memory` for want of
    /// memory: nothing was put.
    fn put(&mut self, bytes: &[u8]) -> Result<(), PutFault>
        ensures { Puts bytes.now (seen self.old) (seen self.new) result };
}

//! A sink over a writer of the system.

ghost use Rattle.std.specs.Prelude.{◌≡◌, ◌≢◌, None, OnOk};
ghost use Rattle.std.specs.Io.KnownBytes.{Appends};
ghost use Rattle.fir_io.specs.working.Os.{os_sink_seen, os_writer};
ghost use Rattle.fir_io.specs.working.Ports.{Puts};

use crate::ports::{PutFault, Sink};
use std::io;

/// A sink over a writer of the system, as standard output. It tells nothing of what it holds.
#[derive(Drop)]
pub struct OsSink<W> {
    writer: W,
    faults: u64,
}

impl<W: io::Write> OsSink<W> {
    /// A sink over this writer.
    pub fn new(writer: W) -> OsSink<W>
        ensures writer { os_writer result ≡ writer }
        ensures held { (os_sink_seen result).held ≡ None }
        ensures faults { (os_sink_seen result).faults ≡ 0 }
    {
        OsSink { writer, faults: 0 }
    }
}

impl<W: io::Write> Sink for OsSink<W> {
    ghost seen = { os_sink_seen };

    fn put(&mut self, bytes: &[u8]) -> Result<(), PutFault>
        ensures puts { Puts bytes.now (os_sink_seen self.old) (os_sink_seen self.new) result }
        ensures written { OnOk result
            (Appends (W.contents (os_writer self.old)) (W.contents (os_writer self.new)) bytes.now) }
        ensures memory { result ≢ Err PutFault.Memory }
    {
        if bytes.is_empty() {
            return Ok(());
        }
        match write_piece(&mut self.writer, bytes) {
            Ok(()) => Ok(()),
            Err(_) => {
                self.faults = self.faults.saturating_add(1);
                Err(PutFault::Failed)
            }
        }
    }
}

/// Writes the whole piece through to the system. A write that takes nothing of it is an error.
fn write_piece<W: io::Write>(writer: &mut W, piece: &[u8]) -> io::Result<()>
    ensures { OnOk result (Appends (W.contents writer.old) (W.contents writer.new) piece.now) }
{
    writer.write_all(piece)?;
    writer.flush()
}

//! A sink in memory, of which no put fails.

ghost use Rattle.std.specs.Prelude.{◌≡◌, [], Some};
ghost use Rattle.fir_io.specs.working.Memory.{HoldsPiece};
ghost use Rattle.fir_io.specs.working.Ports.{Puts};
ghost use Rattle.fir_io.specs.working.Sure.{sure_sink_seen};

use crate::held::append;
use crate::ports::{PutFault, Sink};
use std::alloc::Global;
use std::marker::Model;

/// A sink in memory, of which no put fails.
#[derive(Drop)]
pub struct SureSink {
    held: Vec<u8>,
}

impl Model for SureSink {
    ghost use Rattle.std.specs.Prelude.{List, ℕ};

    ghost Value = { List ℕ };

    ghost view = { λ s. s.held.items };
}

impl SureSink {
    /// An empty sink.
    pub fn new(alloc: Global) -> SureSink
        ensures value { result ≡ [] }
        ensures held { (sure_sink_seen result).held ≡ Some [] }
    {
        SureSink {
            held: Vec::new(alloc),
        }
    }

    /// The bytes that were put.
    pub fn held(&self) -> &[u8]
        ensures { result.now ≡ self.now }
    {
        self.held.as_slice()
    }

    /// The bytes that were put, as a vector.
    pub fn into_bytes(self) -> Vec<u8>
        ensures { result.items ≡ self }
    {
        self.held
    }
}

impl Sink for SureSink {
    ghost seen = { sure_sink_seen };

    fn put(&mut self, bytes: &[u8]) -> Result<(), PutFault>
        ensures puts { Puts bytes.now (sure_sink_seen self.old) (sure_sink_seen self.new) result }
        ensures answer { HoldsPiece bytes.now self.old self.new result }
    {
        append(&mut self.held, bytes)
    }
}

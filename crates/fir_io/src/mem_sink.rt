//! A sink in memory, of whose puts a list is to fail.

ghost use Rattle.std.specs.Prelude.{◌≡◌, [], Some};
ghost use Rattle.fir_io.specs.working.Memory.{mem_sink_seen, MemPuts};
ghost use Rattle.fir_io.specs.working.Ports.{Puts};

use crate::held::{append, append_front};
use crate::planned::{CallFault, FailingCall, planned_at};
use crate::ports::{PutFault, Sink};
use std::alloc::Global;
use std::marker::Model;

/// A sink in memory, of whose puts a list is to fail.
#[derive(Drop)]
pub struct MemSink {
    held: Vec<u8>,
    failing: Vec<FailingCall>,
    calls: u64,
    faults: u64,
}

impl Model for MemSink {
    ghost use Rattle.fir_io.specs.working.Memory.{MemSinkView};

    ghost Value = { MemSinkView };

    ghost view = { λ s. record {
      held = s.held.items;
      failing = s.failing.items;
      calls = s.calls;
      faults = s.faults;
    } };
}

impl MemSink {
    /// An empty sink, of whose puts those that the list names are to fail. The put of an empty piece
    /// is not counted and never fails.
    pub fn new(alloc: Global, failing: Vec<FailingCall>) -> MemSink
        ensures value { result ≡ record {
          held = [];
          failing = failing.items;
          calls = 0;
          faults = 0;
        } }
        ensures held { (mem_sink_seen result).held ≡ Some [] }
    {
        MemSink {
            held: Vec::new(alloc),
            failing,
            calls: 0,
            faults: 0,
        }
    }

    /// The bytes that were put.
    pub fn held(&self) -> &[u8]
        ensures { result.now ≡ self.now.held }
    {
        self.held.as_slice()
    }

    /// The bytes that were put, as a vector.
    pub fn into_bytes(self) -> Vec<u8>
        ensures { result.items ≡ self.held }
    {
        self.held
    }

    /// How many puts failed. The count stays at its greatest value.
    pub fn faults(&self) -> u64
        ensures { result ≡ self.now.faults }
    {
        self.faults
    }
}

impl Sink for MemSink {
    ghost seen = { mem_sink_seen };

    fn put(&mut self, bytes: &[u8]) -> Result<(), PutFault>
        ensures puts { Puts bytes.now (mem_sink_seen self.old) (mem_sink_seen self.new) result }
        ensures answer { MemPuts bytes.now self.old self.new result }
    {
        if bytes.is_empty() {
            return Ok(());
        }
        let fault = planned_at(self.failing.as_slice(), self.calls);
        self.calls = self.calls.saturating_add(1);
        match fault {
            Some(CallFault::Failed(appended)) => {
                append_front(&mut self.held, bytes, appended);
                self.faults = self.faults.saturating_add(1);
                Err(PutFault::Failed)
            }
            Some(CallFault::Memory) => Err(PutFault::Memory),
            None => append(&mut self.held, bytes),
        }
    }
}

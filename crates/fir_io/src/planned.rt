//! Calls that are to fail, for tests of what stands above.

ghost use Rattle.std.specs.Prelude.{◌≡◌};
ghost use Rattle.fir_io.specs.working.Planned.{planned};

/// How a call is to fail.
#[derive(Clone, Copy, Debug)]
pub enum CallFault {
    /// `Failed`, after this many bytes were taken or appended.
    Failed(u64),
    /// Want of memory.
    Memory,
}

/// A call that is to fail.
#[derive(Clone, Copy, Debug)]
pub struct FailingCall {
    /// Which call, counted from 0.
    pub call: u64,
    /// How it fails.
    pub fault: CallFault,
}

/// What the list says of a call: its first entry for it counts.
pub fn planned_at(failing: &[FailingCall], call: u64) -> Option<CallFault>
    ensures { result ≡ planned failing.now call }
{
    failing.iter().find(|f| f.call == call).map(|f| f.fault)
}

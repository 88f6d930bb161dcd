//! The fault of a line, by the place at which the line begins.

ghost use Rattle.std.specs.Prelude.{◌≡◌, ◌≤◌, length};
ghost use Rattle.trace_text.specs.working.Walks.{fault_at, refused_at};

use crate::fault::{Cause, TraceFault};
use crate::lines::line_number;
use fir_base::Refused;

/// What is wrong with the line that begins at the place, as the fault of the trace.
pub fn fault_at(bytes: &[u8], place: usize, cause: Cause) -> TraceFault
    requires { place ≤ length bytes.now }
    ensures { result ≡ fault_at bytes.now place cause }
{
    TraceFault {
        line: line_number(bytes, place),
        start: place as u64,
        cause,
    }
}

/// What was refused of the line that begins at the place, as what is refused of the trace.
pub fn refused_at(bytes: &[u8], place: usize, refused: Refused<Cause>) -> Refused<TraceFault>
    requires { place ≤ length bytes.now }
    ensures { result ≡ refused_at bytes.now place refused }
{
    match refused {
        Refused::Fault(cause) => Refused::Fault(fault_at(bytes, place, cause)),
        Refused::Memory => Refused::Memory,
    }
}

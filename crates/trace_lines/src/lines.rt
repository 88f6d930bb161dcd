//! The lines of a simulation, put to the output some tens of kilobytes at a time.

ghost use Rattle.std.specs.Prelude.{◌≡◌, []};
ghost use Rattle.trace_lines.specs.working.Lined.{Lined, RestPut, finish_for};

use crate::simulation::{Lack, Simulation, Stop};
use fir_base::Refused;
use fir_io::{PutFault, Sink};
use std::alloc::Global;
use trace_text::TraceFault;

/// How many bytes of lines are gathered before they are put to the output.
const GATHERED: usize = 32768;

/// How the ticks of a simulation end.
#[derive(Clone, Copy)]
pub enum Finish {
    /// The trace has no more ticks.
    AllRun,
    /// The trace has a bad line.
    BadLine(TraceFault),
    /// At a tick an item lacks a value.
    Lacking(Lack),
    /// Lines could not be written.
    Unwritten,
    /// Memory was wanted and not there.
    NoMemory,
}

/// Runs the ticks of the trace, gathers the line of each, and puts them to the output.
pub fn put_lines<R: Simulation, S: Sink>(
    alloc: Global,
    simulation: &mut R,
    trace: &[u8],
    out: &mut S,
) -> Finish
    requires ready { R.is_ready trace.now simulation.old }
    requires begun { R.has_made trace.now simulation.old [] }
    ensures { Lined trace.now (R.ran (R.of simulation.old)) (R.lacked (R.of simulation.old)) (S.seen out.old) (S.seen out.new) result }
{
    let mut lines = Vec::new(alloc);
    // each tick takes a byte of the trace at least
    for _ in 0..trace.len() + 1 {
        match simulation.step(alloc, trace, &mut lines) {
            Ok(true) => {
                if lines.len() >= GATHERED {
                    match out.put(lines.as_slice()) {
                        Ok(()) => lines.clear(),
                        Err(PutFault::Failed) => return Finish::Unwritten,
                        Err(PutFault::Memory) => return Finish::NoMemory,
                    }
                }
            }
            Ok(false) => return put_rest(lines.as_slice(), out, Finish::AllRun),
            Err(Refused::Fault(stop)) => return put_rest(lines.as_slice(), out, finish_of(stop)),
            Err(Refused::Memory) => return put_rest(lines.as_slice(), out, Finish::NoMemory),
        }
    }
    unreachable!()
}

/// How the ticks end for that reason.
fn finish_of(stop: Stop) -> Finish
    ensures { result ≡ finish_for stop }
{
    match stop {
        Stop::BadLine(fault) => Finish::BadLine(fault),
        Stop::Lacking(lack) => Finish::Lacking(lack),
    }
}

/// Puts the lines that are still gathered where the ticks end.
fn put_rest<S: Sink>(lines: &[u8], out: &mut S, finish: Finish) -> Finish
    ensures { RestPut lines.now finish (S.seen out.old) (S.seen out.new) result }
{
    if lines.is_empty() {
        return finish;
    }
    match out.put(lines) {
        Ok(()) => finish,
        Err(PutFault::Failed) => Finish::Unwritten,
        Err(PutFault::Memory) => Finish::NoMemory,
    }
}

//! What a command does that simulates: the one file, the trace, and then tick after tick.

ghost use Rattle.std.specs.Prelude.{◌≡◌, ◌≤◌, IsTrue, List, ℕ, length};
ghost use Rattle.fir_cli.specs.Outside.{outside};
ghost use Rattle.trace_command.specs.Simulates.{Simulates};
ghost use Rattle.trace_command.specs.working.SimulationEndings.{FinishSaid, OfText, OfMachine, OfTrace};

use crate::command::SimulationCommand;
use fir_base::Refused;
use fir_cli::{
    LIMIT, MEMORY_LINE, Status, UNWRITTEN_LINE, say, say_bad_line, say_lack, say_unread,
};
use fir_io::{Files, Sink};
use std::alloc::Global;
use trace_lines::Finish;

/// Reads the file of that name and the trace, and prints a line for each tick of the trace.
pub fn simulate<C: SimulationCommand, F: Files, S: Sink, T: Sink>(
    alloc: Global,
    command: &C,
    source: &str,
    trace: &str,
    files: &mut F,
    out: &mut S,
    err: &mut T,
) -> Status
    requires source { IsTrue ((F.seen files.old).may source.now) }
    requires trace { IsTrue ((F.seen files.old).may trace.now) }
    ensures { Simulates (C.says command.now) (record { source = source.now; trace = trace.now }) (outside (F.seen files.old) (S.seen out.old) (T.seen err.old)) (outside (F.seen files.new) (S.seen out.new) (T.seen err.new)) result }
{
    command.fronts_begin();
    command.status();
    match files.read(alloc, source, LIMIT) {
        Ok(text) => simulate_text(alloc, command, text.as_slice(), trace, files, out, err),
        Err(fault) => say_unread(alloc, err, source, fault),
    }
}

/// Goes on with the text.
fn simulate_text<C: SimulationCommand, F: Files, S: Sink, T: Sink>(
    alloc: Global,
    command: &C,
    text: &[u8],
    trace: &str,
    files: &mut F,
    out: &mut S,
    err: &mut T,
) -> Status
    requires short { length text.now ≤ 16777216 }
    requires trace { IsTrue ((F.seen files.old).may trace.now) }
    ensures { OfText (C.says command.now) text.now trace.now (outside (F.seen files.old) (S.seen out.old) (T.seen err.old)) (outside (F.seen files.new) (S.seen out.new) (T.seen err.new)) result }
{
    match command.machine_of(alloc, text) {
        Ok(machine) => simulate_machine(alloc, command, machine, trace, files, out, err),
        Err(Refused::Fault(line)) => say(err, line.as_slice(), command.status()),
        Err(Refused::Memory) => say(err, MEMORY_LINE, Status::NoMemory),
    }
}

/// Goes on with what the text says.
fn simulate_machine<C: SimulationCommand, F: Files, S: Sink, T: Sink>(
    alloc: Global,
    command: &C,
    machine: C::Machine,
    trace: &str,
    files: &mut F,
    out: &mut S,
    err: &mut T,
) -> Status
    requires trace { IsTrue ((F.seen files.old).may trace.now) }
    requires made { (text : List ℕ) × C.is_of text machine }
    ensures { (text : List ℕ) → C.is_of text machine → OfMachine (C.says command.now) text trace.now (outside (F.seen files.old) (S.seen out.old) (T.seen err.old)) (outside (F.seen files.new) (S.seen out.new) (T.seen err.new)) result }
{
    match files.read(alloc, trace, LIMIT) {
        Ok(ticks) => simulate_trace(alloc, command, machine, ticks.as_slice(), out, err),
        Err(fault) => say_unread(alloc, err, trace, fault),
    }
}

/// Goes on with the trace, tick by tick.
fn simulate_trace<C: SimulationCommand, S: Sink, T: Sink>(
    alloc: Global,
    command: &C,
    machine: C::Machine,
    trace: &[u8],
    out: &mut S,
    err: &mut T,
) -> Status
    requires { (text : List ℕ) × C.is_of text machine }
    ensures { (text : List ℕ) → C.is_of text machine → OfTrace (C.says command.now) text trace.now (S.seen out.old) (S.seen out.new) (T.seen err.old) (T.seen err.new) result }
{
    let finish = command.run(alloc, machine, trace, out);
    say_finish(alloc, trace, finish, command.status(), err)
}

/// Says how the ticks ended.
fn say_finish<T: Sink>(
    alloc: Global,
    trace: &[u8],
    finish: Finish,
    lacking: Status,
    err: &mut T,
) -> Status
    ensures { FinishSaid lacking trace.now finish (T.seen err.old) (T.seen err.new) result }
{
    match finish {
        Finish::AllRun => Status::Done,
        Finish::BadLine(fault) => say_bad_line(alloc, err, trace, &fault),
        Finish::Lacking(lack) => say_lack(alloc, err, lack, lacking),
        Finish::Unwritten => say(err, UNWRITTEN_LINE, Status::Unwritten),
        Finish::NoMemory => say(err, MEMORY_LINE, Status::NoMemory),
    }
}

//! The lines of the error output.

ghost use Rattle.std.specs.Prelude.{◌≡◌, ◌++◌, IfOk, List, ℕ, codes};
ghost use Rattle.fir_base.specs.Ticks.{Tick};
ghost use Rattle.fir_io.specs.Ports.{SinkSeen};
ghost use Rattle.fir_cli.specs.declared.status.Status.TheVariants as status;
ghost use Rattle.trace_text.specs.Shapes.{TraceShape};
ghost use Rattle.trace_text.specs.BadLine.{BadLine};
ghost use Rattle.trace_text.specs.FaultTexts.{fault_text};
ghost use Rattle.trace_lines.specs.Saying.{lack_line};
ghost use Rattle.fir_cli.specs.working.Endings.{Said, Complained, Untaken};

use crate::status::Status;
use fir_base::{MemoryOut, put_decimal};
use fir_io::{FileFault, PutFault, Sink};
use std::alloc::Global;
use trace_lines::Lack;
use trace_text::{TraceFault, bad_line};

pub const USAGE_LINE: &[u8] =
    b"usage: firc check FILE | lower FILE | emit FILE | sim FILE TRACE [--state] | vsim VFILE TRACE [--state] [--order N] | gen N\n";

pub const UNWRITTEN_LINE: &[u8] = b"write\n";

pub const MEMORY_LINE: &[u8] = b"memory\n";

/// Puts a line, and ends with the status where that succeeds.
pub fn say<T: Sink>(err: &mut T, line: &[u8], due: Status) -> Status
    ensures { Said line.now due (T.seen err.old) (T.seen err.new) result }
{
    match err.put(line) {
        Ok(()) => due,
        Err(PutFault::Failed) => Status::Unwritten,
        Err(PutFault::Memory) => Status::NoMemory,
    }
}

/// Puts the words and the file's name as a line, and ends with the status where that succeeds.
pub fn complain<T: Sink>(
    alloc: Global,
    err: &mut T,
    words: &[u8],
    name: &str,
    due: Status,
) -> Status
    ensures { Complained (words.now ++ name.now ++ codes "\n") due (T.seen err.old) (T.seen err.new) result }
{
    match line_of(alloc, words, name) {
        Ok(line) => say(err, line.as_slice(), due),
        Err(MemoryOut) => say(err, MEMORY_LINE, Status::NoMemory),
    }
}

fn line_of(alloc: Global, words: &[u8], name: &str) -> Result<Vec<u8>, MemoryOut>
    ensures { IfOk result (λ line. line.items ≡ words.now ++ name.now ++ codes "\n") }
{
    let mut line = Vec::new(alloc);
    line.extend_from_slice(words)?;
    line.extend_from_slice(name.as_bytes())?;
    line.extend_from_slice(b"\n")?;
    Ok(line)
}

/// Puts the line of the bad line of a trace, and ends with `BadTrace` where that succeeds.
pub fn say_bad_line<T: Sink>(alloc: Global, err: &mut T, trace: &[u8], fault: &TraceFault) -> Status
    ensures { (s : TraceShape) (init : List ℕ) (ticks : List Tick) (bad : BadLine trace.now s init ticks fault.now) → Complained (fault_text fault.now bad.bad) status.BadTrace (T.seen err.old) (T.seen err.new) result }
{
    let mut line = Vec::new(alloc);
    match fault.put_line(alloc, bad_line(trace, fault), &mut line) {
        Ok(()) => say(err, line.as_slice(), Status::BadTrace),
        Err(MemoryOut) => say(err, MEMORY_LINE, Status::NoMemory),
    }
}

/// Puts the line of a tick at which an item lacks a value, and ends with the status where that succeeds.
pub fn say_lack<T: Sink>(alloc: Global, err: &mut T, lack: Lack, due: Status) -> Status
    ensures { Complained (lack_line lack) due (T.seen err.old) (T.seen err.new) result }
{
    match line_of_lack(alloc, lack) {
        Ok(line) => say(err, line.as_slice(), due),
        Err(MemoryOut) => say(err, MEMORY_LINE, Status::NoMemory),
    }
}

fn line_of_lack(alloc: Global, lack: Lack) -> Result<Vec<u8>, MemoryOut>
    ensures { IfOk result (λ line. line.items ≡ lack_line lack) }
{
    let mut line = Vec::new(alloc);
    line.extend_from_slice(b"V09 ")?;
    put_decimal(&mut line, u128::from(lack.line))?;
    line.extend_from_slice(b":")?;
    put_decimal(&mut line, u128::from(lack.col))?;
    line.extend_from_slice(b" tick ")?;
    put_decimal(&mut line, u128::from(lack.tick))?;
    line.extend_from_slice(b"\n")?;
    Ok(line)
}

/// Says why a file was not read.
pub fn say_unread<T: Sink>(alloc: Global, err: &mut T, name: &str, fault: FileFault) -> Status
    ensures { Untaken name.now fault (T.seen err.old) (T.seen err.new) result }
{
    match fault {
        FileFault::Failed => complain(alloc, err, b"read ", name, Status::Unread),
        FileFault::TooLong => complain(alloc, err, b"too long ", name, Status::TooLong),
        FileFault::Memory => say(err, MEMORY_LINE, Status::NoMemory),
    }
}

//! Commands that read one file and write one text of it. What they do is the same for all: a command says which text it
//! writes of the bytes, and why it refuses them.

ghost use Rattle.std.specs.Prelude.{◌≤◌, IsTrue, length};
ghost use Rattle.fir_cli.specs.Outside.{outside};
ghost use Rattle.fir_commands.specs.TextCommands.{PutsText};
ghost use Rattle.fir_commands.specs.working.TextEndings.{IsTextOf, TextPut, Written};

use crate::refusal::say_fault;
use fir_ast::FirFault;
use fir_base::Refused;
use fir_cli::{LIMIT, MEMORY_LINE, Status, UNWRITTEN_LINE, say, say_unread};
use fir_io::{Files, PutFault, Sink};
use std::alloc::Global;

/// A command that writes one text of the bytes of one file.
pub trait TextCommand {
    ghost use Rattle.fir_commands.specs.TextCommands.{TextMeaning};

    /// Which text it writes of which bytes, by which line it refuses bytes, and which it takes.
    ghost says: { TextMeaning };

    /// The text of the bytes, or the fault for which they are refused.
    fn text_of(&self, alloc: Global, bytes: &[u8]) -> Result<Vec<u8>, Refused<FirFault>>
        requires { length bytes.now ≤ 16777216 }
        ensures { IsTextOf says bytes.now (λ text. text.items) result };
}

/// Reads the file, and puts the command's text of it to the output.
pub fn put_text_of<C: TextCommand, F: Files, S: Sink, T: Sink>(
    alloc: Global,
    command: &C,
    name: &str,
    files: &mut F,
    out: &mut S,
    err: &mut T,
) -> Status
    requires { IsTrue ((F.seen files.old).may name.now) }
    ensures { PutsText C.says name.now (outside (F.seen files.old) (S.seen out.old) (T.seen err.old)) (outside (F.seen files.new) (S.seen out.new) (T.seen err.new)) result }
{
    match files.read(alloc, name, LIMIT) {
        Ok(bytes) => write_text_of(alloc, command, bytes.as_slice(), out, err),
        Err(fault) => say_unread(alloc, err, name, fault),
    }
}

/// Writes the text of the bytes, or says why they are refused.
fn write_text_of<C: TextCommand, S: Sink, T: Sink>(
    alloc: Global,
    command: &C,
    bytes: &[u8],
    out: &mut S,
    err: &mut T,
) -> Status
    requires { length bytes.now ≤ 16777216 }
    ensures { TextPut C.says bytes.now (S.seen out.old) (S.seen out.new) (T.seen err.old) (T.seen err.new) result }
{
    match command.text_of(alloc, bytes) {
        Ok(text) => write(text.as_slice(), out, err),
        Err(Refused::Fault(fault)) => say_fault(alloc, err, &fault),
        Err(Refused::Memory) => say(err, MEMORY_LINE, Status::NoMemory),
    }
}

/// Puts the text to the output.
fn write<S: Sink, T: Sink>(text: &[u8], out: &mut S, err: &mut T) -> Status
    ensures { Written text.now (S.seen out.old) (S.seen out.new) (T.seen err.old) (T.seen err.new) result }
{
    match out.put(text) {
        Ok(()) => Status::Done,
        Err(PutFault::Failed) => say(err, UNWRITTEN_LINE, Status::Unwritten),
        Err(PutFault::Memory) => say(err, MEMORY_LINE, Status::NoMemory),
    }
}

//! The line of a fault.

ghost use Rattle.std.specs.Prelude.{◌≡◌, ◌++◌, IfOk, OnErr, OnOk, decimal, drop, take};
ghost use Rattle.trace_text.specs.FaultTexts.{code_text, evidence_text, fault_text};

use crate::fault::{Cause, TraceFault};
use fir_base::{MemoryOut, put_decimal};
use std::alloc::Global;

impl TraceFault {
    /// Appends the fault's line, where this is the bad line: its code, the number of the bad line, the
    /// evidence, parted by single spaces, and a newline. Where memory is wanting, `out` is as before.
    pub fn put_line(&self, alloc: Global, line: &[u8], out: &mut Vec<u8>) -> Result<(), MemoryOut>
        ensures text { OnOk result (out.new.items ≡ out.old.items ++ fault_text self.now line.now) }
        ensures unchanged { OnErr result (out.new.items ≡ out.old.items) }
    {
        let text = text_of(alloc, self, line)?;
        out.extend_from_slice(text.as_slice())?;
        Ok(())
    }
}

fn text_of(alloc: Global, fault: &TraceFault, line: &[u8]) -> Result<Vec<u8>, MemoryOut>
    ensures { IfOk result (λ text. text.items ≡ fault_text fault.now line.now) }
{
    let mut text = Vec::new(alloc);
    text.extend_from_slice(code_of(&fault.cause))?;
    put_decimal(&mut text, u128::from(fault.line))?;
    put_evidence(&mut text, &fault.cause, line)?;
    text.extend_from_slice(b"\n")?;
    Ok(text)
}

/// The code, and the space behind it.
fn code_of(cause: &Cause) -> &'static [u8]
    ensures { result.now ≡ code_text cause.now }
{
    match cause {
        Cause::Misspelled(_) => b"X01 ",
        Cause::Count(_, _) => b"X02 ",
        Cause::Wide(_, _) => b"X03 ",
        Cause::Absent(_, _) => b"X04 ",
        Cause::Long => b"X05 ",
    }
}

fn put_evidence(out: &mut Vec<u8>, cause: &Cause, line: &[u8]) -> Result<(), MemoryOut>
    ensures { OnOk result (out.new.items ≡ out.old.items ++ evidence_text cause.now line.now) }
{
    match cause {
        Cause::Misspelled(word) => put_number(out, b" word ", u128::from(*word)),
        Cause::Count(found, wanted) => {
            put_number(out, b" words ", u128::from(*found))?;
            put_number(out, b" of ", u128::from(*wanted))
        }
        Cause::Wide(word, width) => {
            put_number(out, b" word ", u128::from(*word))?;
            put_number(out, b" width ", u128::from(*width))
        }
        Cause::Absent(start, count) => {
            out.extend_from_slice(b" name ")?;
            out.extend_from_slice(part(line, *start, *count))?;
            Ok(())
        }
        Cause::Long => Ok(()),
    }
}

fn put_number(out: &mut Vec<u8>, words: &[u8], number: u128) -> Result<(), MemoryOut>
    ensures { OnOk result (out.new.items ≡ out.old.items ++ (words.now ++ decimal number)) }
{
    out.extend_from_slice(words)?;
    put_decimal(out, number)
}

/// The bytes of a line from a place on, so many, or as many as are left.
fn part(line: &[u8], start: u64, count: u64) -> &[u8]
    ensures { result.now ≡ take count (drop start line.now) }
{
    let rest = &line[line.len().min(start as usize)..];
    &rest[..rest.len().min(count as usize)]
}

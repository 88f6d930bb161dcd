//! The line that tells what a circuit has, in numbers.

ghost use Rattle.std.specs.Prelude.{◌≡◌, ◌++◌, IfOk, OnOk, decimal};
ghost use Rattle.fir_outcome.specs.Checks.{counts_line};
ghost use Rattle.fir_compile.specs.working.Counted.{counts_of};

use fir_base::{MemoryOut, put_decimal};
use fir_net::Counts;
use std::alloc::Global;

/// `ok leaves L registers R memories M`, and a newline.
pub fn counts_line(alloc: Global, counts: &Counts) -> Result<Vec<u8>, MemoryOut>
    ensures { IfOk result (λ line. line.items ≡ counts_line (counts_of counts.now)) }
{
    let mut line = Vec::new(alloc);
    put_count(&mut line, b"ok leaves ", counts.leaves)?;
    put_count(&mut line, b" registers ", counts.registers)?;
    put_count(&mut line, b" memories ", counts.memories)?;
    line.extend_from_slice(b"\n")?;
    Ok(line)
}

/// Appends the words, and the number in decimal.
fn put_count(line: &mut Vec<u8>, words: &[u8], count: u64) -> Result<(), MemoryOut>
    ensures { OnOk result (line.new.items ≡ line.old.items ++ words.now ++ decimal count) }
{
    line.extend_from_slice(words)?;
    put_decimal(line, u128::from(count))
}

//! The line of a tick.

ghost use Rattle.std.specs.Prelude.{◌≡◌, ◌++◌, IfOk, OnErr, OnOk, map, option_map};
ghost use Rattle.trace_text.specs.OutputLines.{line_text, round_words, words_of_state, value_text};
ghost use Rattle.trace_text.specs.working.ClosedWords.{closed};

use crate::hexadecimal::put_padded;
use fir_base::{MemoryOut, put_decimal};
use fir_bits::Bits;
use std::alloc::Global;

/// Appends the line of a tick: the outputs; where it is shown, the state behind a word `|`; and where they
/// are told, the rounds behind a word `;`. Where memory is wanting, `out` is as before.
pub fn write_line(
    alloc: Global,
    outputs: &[Bits],
    state: Option<&[Bits]>,
    rounds: Option<u64>,
    out: &mut Vec<u8>,
) -> Result<(), MemoryOut>
    ensures line { OnOk result
        (out.new.items ≡ out.old.items ++ line_text outputs.now (option_map (λ s. s.now) state.entry) rounds) }
    ensures unchanged { OnErr result (out.new.items ≡ out.old.items) }
{
    let line = line_of(alloc, outputs, state, rounds)?;
    out.extend_from_slice(line.as_slice())?;
    Ok(())
}

/// The line. Each word is put with a space behind it, and the newline stands in the place of the last.
fn line_of(
    alloc: Global,
    outputs: &[Bits],
    state: Option<&[Bits]>,
    rounds: Option<u64>,
) -> Result<Vec<u8>, MemoryOut>
    ensures { IfOk result (λ line. line.items ≡ line_text outputs.now (option_map (λ s. s.now) state.entry) rounds) }
{
    let mut line = Vec::new(alloc);
    put_values(&mut line, outputs)?;
    put_state(&mut line, state)?;
    put_rounds(&mut line, rounds)?;
    line.pop();
    line.push(b'\n')?;
    Ok(line)
}

fn put_state(line: &mut Vec<u8>, state: Option<&[Bits]>) -> Result<(), MemoryOut>
    ensures { OnOk result
        (line.new.items ≡ line.old.items ++ closed (words_of_state (option_map (λ s. s.now) state.entry))) }
{
    match state {
        None => Ok(()),
        Some(words) => {
            line.extend_from_slice(b"| ")?;
            put_values(line, words)
        }
    }
}

fn put_rounds(line: &mut Vec<u8>, rounds: Option<u64>) -> Result<(), MemoryOut>
    ensures { OnOk result (line.new.items ≡ line.old.items ++ closed (round_words rounds)) }
{
    match rounds {
        None => Ok(()),
        Some(count) => {
            line.extend_from_slice(b"; ")?;
            put_decimal(line, u128::from(count))?;
            line.extend_from_slice(b" ")?;
            Ok(())
        }
    }
}

fn put_values(line: &mut Vec<u8>, values: &[Bits]) -> Result<(), MemoryOut>
    ensures { OnOk result (line.new.items ≡ line.old.items ++ closed (map value_text values.now)) }
{
    for value in values {
        put_padded(line, value.width().div_ceil(4), value.bits())?;
        line.extend_from_slice(b" ")?;
    }
    Ok(())
}

//! The init lines at the front of a trace.

ghost use Rattle.std.specs.Prelude.{◌≡◌, ◌≤◌, length, true, false, IfOk, MatchOption, replicate};
ghost use Rattle.trace_text.specs.working.Readings.{ReadsInit};
ghost use Rattle.trace_text.specs.working.LineStarts.{may_go_on};
ghost use Rattle.trace_text.specs.Shapes.{state_widths};
ghost use Rattle.trace_text.specs.TraceSpells.{zeros};
ghost use Rattle.trace_text.specs.working.Walks.{is_before_ticks, goes_on, IsBeforeTicks, TakesLine};

use crate::fault::{Cause, TraceFault};
use crate::fault_place::refused_at;
use crate::init::Init;
use crate::init_line::read_init_line;
use crate::lines::{Line, is_init_line, is_skipped, line_at};
use crate::shape::{Shape, StateWord};
use fir_base::{MemoryOut, Refused};
use std::alloc::Global;

/// A zero for each word of the state.
fn zeros(alloc: Global, state: &[StateWord]) -> Result<Vec<u128>, MemoryOut>
    ensures { IfOk result (λ words. words.items ≡ replicate (length (state_widths state.now)) 0) }
{
    let mut words = Vec::new(alloc);
    for word in state {
        let size = word.depth.unwrap_or(1) as usize;
        words.resize(words.len() + size, 0)?;
    }
    Ok(words)
}

/// Whether a line begins here that may be skipped or begin with `init`, as far as its first byte shows.
fn may_go_on(rest: &[u8]) -> bool
    ensures { result ≡ may_go_on rest.now }
{
    matches!(rest, [b'#' | b'\n' | b'i', ..])
}

/// The line that begins at the place, if it is skipped or begins with `init`.
fn line_before_ticks(bytes: &[u8], place: usize) -> Option<Line<'_>>
    requires { place ≤ length bytes.now }
    ensures { MatchOption result (goes_on bytes.now place ≡ false) (λ line. IsBeforeTicks bytes.now place line) }
{
    if !may_go_on(&bytes[place..]) {
        return None;
    }
    let line = line_at(bytes, place);
    if is_skipped(line.text) || is_init_line(line.text) {
        Some(line)
    } else {
        None
    }
}

/// Sets the word that the line gives, if it is not skipped, or tells what is wrong with the line.
fn take_line(
    alloc: Global,
    shape: &Shape,
    line: &[u8],
    words: &mut Vec<u128>,
) -> Result<(), Refused<Cause>>
    requires stands { is_before_ticks line.now ≡ true }
    requires room { length words.old.items ≡ length (zeros shape.now) }
    ensures takes { TakesLine shape.now line.now words.old.items words.new.items result }
    ensures room { length words.new.items ≡ length words.old.items }
{
    if is_skipped(line) {
        return Ok(());
    }
    let word = read_init_line(alloc, shape, line)?;
    words[word.place] = word.value;
    Ok(())
}

/// The state before the first tick, and the place behind the init lines, or the first of these lines that is
/// bad. A later line for the same word counts; words that are not named are 0.
pub fn read_init(
    alloc: Global,
    bytes: &[u8],
    shape: &Shape,
) -> Result<(Init, u64), Refused<TraceFault>>
    ensures { ReadsInit bytes.now shape.now result }
{
    let mut words = zeros(alloc, shape.state())?;
    let mut place = 0;
    while let Some(line) = line_before_ticks(bytes, place) {
        if let Err(refused) = take_line(alloc, shape, line.text, &mut words) {
            return Err(refused_at(bytes, place, refused));
        }
        place = line.behind;
    }
    Ok((Init::new(words), place as u64))
}

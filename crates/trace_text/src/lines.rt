//! The lines of a trace, by the places at which they begin.

ghost use Rattle.std.specs.Prelude.{◌≡◌, ◌+◌, ◌≤◌, ◌<◌, List, ℕ, length, take, count_by, position};
ghost use Rattle.fir_base.specs.Ticks.{Tick};
ghost use Rattle.trace_text.specs.BadLine.{BadLine};
ghost use Rattle.trace_text.specs.Shapes.{TraceShape};
ghost use Rattle.trace_text.specs.Lines.{is_newline, first_line};
ghost use Rattle.trace_text.specs.working.Readings.{is_skipped, is_init_line};
ghost use Rattle.trace_text.specs.working.LineStarts.{ends_word};
ghost use Rattle.trace_text.specs.working.Walks.{IsLine};

use crate::fault::TraceFault;

/// The most bytes of a line, without its newline.
pub const LINE_LIMIT: usize = 4096;

/// A line, without its newline.
#[derive(Clone, Copy)]
pub struct Line<'a> {
    /// The place at which it begins.
    pub place: usize,
    pub text: &'a [u8],
    /// The place behind it and its newline.
    pub behind: usize,
}

fn first_newline(bytes: &[u8]) -> Option<usize>
    ensures { result ≡ position is_newline bytes.now }
{
    bytes.iter().position(|byte| *byte == b'\n')
}

/// The bytes before the first newline, or all.
#[tactic(auto, using(crate::proofs::LinePlaces::found_front, crate::proofs::LinePlaces::whole_front))]
fn first_line(bytes: &[u8]) -> &[u8]
    ensures { result.now ≡ first_line bytes.now }
{
    match first_newline(bytes) {
        Some(count) => &bytes[..count],
        None => bytes,
    }
}

/// The line that begins at the place.
pub fn line_at(bytes: &[u8], place: usize) -> Line<'_>
    requires { place < length bytes.now }
    ensures line { IsLine bytes.now result }
    ensures place { result.place ≡ place }
{
    let text = first_line(&bytes[place..]);
    let behind = bytes.len().min(place + text.len() + 1);
    Line {
        place,
        text,
        behind,
    }
}

/// Whether a line counts for nothing.
pub fn is_skipped(line: &[u8]) -> bool
    ensures { result ≡ is_skipped line.now }
{
    line.len() <= LINE_LIMIT && (line.is_empty() || line[0] == b'#')
}

/// Whether a word ends where these bytes begin.
fn ends_word(rest: &[u8]) -> bool
    ensures { result ≡ ends_word rest.now }
{
    matches!(rest, [] | [b' ', ..])
}

/// Whether a line begins with the word `init`.
pub fn is_init_line(line: &[u8]) -> bool
    ensures { result ≡ is_init_line line.now }
{
    match line.strip_prefix(b"init") {
        Some(rest) => ends_word(rest),
        None => false,
    }
}

/// The number of the line that begins at the place, from 1.
pub fn line_number(bytes: &[u8], place: usize) -> u64
    requires { place ≤ length bytes.now }
    ensures { result ≡ 1 + count_by is_newline (take place bytes.now) }
{
    let before = bytes[..place].iter().filter(|byte| **byte == b'\n').count();
    before as u64 + 1
}

/// The bad line of which a fault of these bytes tells, without its newline.
pub fn bad_line<'a>(bytes: &'a [u8], fault: &TraceFault) -> &'a [u8]
    ensures { (shape : TraceShape) (init : List ℕ) (ticks : List Tick) (bad : BadLine bytes.now shape init ticks fault.now) → result.now ≡ bad.bad }
{
    let start = bytes.len().min(fault.start as usize);
    first_line(&bytes[start..])
}

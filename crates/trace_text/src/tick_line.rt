//! The line of a tick, or one that stands in its place.

ghost use Rattle.std.specs.Prelude.{◌≡◌, ◌++◌, ◌∷◌, [], Some, false};
ghost use Rattle.trace_text.specs.declared.fault.Cause.TheVariants.{Misspelled};
ghost use Rattle.trace_text.specs.LineFaults.{init_count};
ghost use Rattle.trace_text.specs.working.Readings.{first_cause, is_skipped, ReadsTickLine};
ghost use Rattle.trace_text.specs.working.Rooms.{HasRoom};

use crate::fault::Cause;
use crate::lines::{LINE_LIMIT, is_init_line};
use crate::shape::Shape;
use crate::tick::Tick;
use crate::words::word_count;

/// What is wrong with an init line of so many words that stands behind a tick.
fn late_init_fault(words: u64) -> Cause
    ensures { Some result ≡ first_cause (init_count words ++ Misspelled 1 ∷ []) }
{
    match words {
        0..=2 => Cause::Count(words, 3),
        3 | 4 => Cause::Misspelled(1),
        _ => Cause::Count(words, 4),
    }
}

/// Reads a line that is not skipped into the tick, or tells what is wrong with it and leaves the tick as it
/// was.
pub fn read_tick_line(shape: &Shape, line: &[u8], tick: &mut Tick) -> Result<(), Cause>
    requires counts { is_skipped line.now ≡ false }
    requires room { HasRoom shape.now tick.old }
    ensures reads { ReadsTickLine shape.now line.now tick.old.tick tick.new.tick result }
    ensures room { HasRoom shape.now tick.new }
{
    if line.len() > LINE_LIMIT {
        return Err(Cause::Long);
    }
    if is_init_line(line) {
        return Err(late_init_fault(word_count(line)));
    }
    tick.read_words(shape, line)
}

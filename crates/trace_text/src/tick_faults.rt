//! What is wrong with the words of a tick's line, in the order in which it is told.

ghost use Rattle.std.specs.Prelude.{◌≡◌, ◌+◌, ◌^◌, ◌<◌, ℕ, List, length};
ghost use Rattle.trace_text.specs.Shapes.{TraceShape};
ghost use Rattle.trace_text.specs.working.TickWords.{JudgesWords, WordsAreRead};

use crate::clock_list::ReadClocks;
use crate::fault::Cause;
use crate::tick_words::ReadValues;

/// How many clocks the words of a line name, which should have a value for each of these widths, or the first
/// thing that is wrong with them.
pub fn judge(widths: &[u32], clocks: Option<ReadClocks>, values: ReadValues) -> Result<usize, Cause>
    requires { values.count + 1 < 2 ^ 64 }
    ensures { (shape : TraceShape) (w : List ℕ) (ws : List (List ℕ)) (room held : List ℕ) → shape.inputs ≡ widths.now → WordsAreRead shape w ws clocks room values held → JudgesWords shape w ws room held result }
{
    if values.count != widths.len() {
        return Err(Cause::Count(values.count as u64 + 1, widths.len() as u64 + 1));
    }
    let Some(clocks) = clocks else {
        return Err(Cause::Misspelled(1));
    };
    match values.misspelled.or(clocks.absent).or(values.wide) {
        Some(cause) => Err(cause),
        None => Ok(clocks.named),
    }
}

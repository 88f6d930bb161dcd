//! The ticks of a trace, one after the other.

ghost use Rattle.std.specs.Prelude.{◌≡◌, ◌≤◌, ◌<◌, length, true, Ok, MatchOption};
ghost use Rattle.trace_text.specs.working.Readings.{StepsToTick};
ghost use Rattle.trace_text.specs.working.Rooms.{HasRoom};
ghost use Rattle.trace_text.specs.working.Walks.{IsPast, IsCounting};

use crate::fault::TraceFault;
use crate::fault_place::fault_at;
use crate::lines::{Line, is_skipped, line_at};
use crate::shape::Shape;
use crate::tick::Tick;
use crate::tick_line::read_tick_line;

/// The first line from the place on that counts. None where only skipped lines are left.
fn counting_line(bytes: &[u8], from: usize) -> Option<Line<'_>>
    requires { from ≤ length bytes.now }
    ensures { MatchOption result (IsPast bytes.now from (length bytes.now)) (λ line. IsCounting bytes.now from line) }
{
    let mut place = from;
    while place < bytes.len() {
        let line = line_at(bytes, place);
        if !is_skipped(line.text) {
            return Some(line);
        }
        place = line.behind;
    }
    None
}

/// Reads the next tick from the place on, which is then the one behind its line; false, with the place at
/// the end, where no tick is left. Where a line is bad, the place is the one at which it begins, and the tick
/// is as before. It takes no memory.
pub fn next_tick(
    bytes: &[u8],
    at: &mut u64,
    shape: &Shape,
    tick: &mut Tick,
) -> Result<bool, TraceFault>
    requires place { at.old ≤ length bytes.now }
    requires room { HasRoom shape.now tick.old }
    ensures steps { StepsToTick bytes.now shape.now at.old at.new tick.old.tick tick.new.tick result }
    ensures place { at.new ≤ length bytes.now }
    ensures later { result ≡ Ok true → at.old < at.new }
    ensures room { HasRoom shape.now tick.new }
{
    let Some(line) = counting_line(bytes, *at as usize) else {
        *at = bytes.len() as u64;
        return Ok(false);
    };
    *at = line.place as u64;
    match read_tick_line(shape, line.text, tick) {
        Ok(()) => {
            *at = line.behind as u64;
            Ok(true)
        }
        Err(cause) => Err(fault_at(bytes, line.place, cause)),
    }
}

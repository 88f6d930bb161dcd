//! Whether every process shows the value of its right side.

ghost use Rattle.std.specs.Prelude.{◌≡◌, length, IfNone, IfSome};
ghost use Rattle.ver_sim.specs.working.Turns.{ShowFirst, IsFirstUnsettled};

use crate::numbers::at;
use crate::task::Task;
use crate::work::value_of;

/// A process that does not show the value of its right side: its number, what its target shows, and the value
/// of its right side where that has one.
#[derive(Clone, Copy)]
pub struct NotYet {
    pub process: u64,
    pub shown: u128,
    pub wanted: Option<u128>,
}

/// The first process that does not show the value of its right side.
pub fn first_unsettled(tasks: &[Task], state: &[u128], values: &[u128]) -> Option<NotYet>
    ensures settled { IfNone result (ShowFirst tasks.now state.now values.now (length tasks.now)) }
    ensures not_yet { IfSome result (IsFirstUnsettled tasks.now state.now values.now) }
{
    for (number, task) in tasks.iter().enumerate() {
        let shown = at(values, task.target);
        let wanted = value_of(&task.work, state, values);
        if wanted != Some(shown) {
            return Some(NotYet {
                process: number as u64,
                shown,
                wanted,
            });
        }
    }
    None
}

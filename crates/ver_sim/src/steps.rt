//! Processes that are taken one by one.

ghost use Rattle.std.specs.Prelude.{◌≡◌, length, Some, IfErr, OnOk};
ghost use Rattle.ver_sim.specs.working.Turns.{turn, turn_of, turns, ShowFirst, IsFirstUnsettled};

use crate::plan::Plan;
use crate::task::Task;
use crate::unsettled::{NotYet, first_unsettled};
use crate::work::value_of;

/// The target takes the value of the right side, or 0 where that has none.
fn take_step(task: &Task, state: &[u128], values: &mut [u128])
    ensures { values.new ≡ turn_of state.now values.old (Some task.now) }
{
    let value = value_of(&task.work, state, values).unwrap_or(0);
    if task.target < values.len() {
        values[task.target] = value;
    }
}

/// Takes a step of the process of that number; past the last process nothing is done.
fn take_turn(tasks: &[Task], number: u64, state: &[u128], values: &mut [u128])
    ensures { values.new ≡ turn tasks.now state.now values.old number }
{
    if let Some(task) = tasks.get(number as usize) {
        take_step(task, state, values);
    }
}

/// Takes a step of each process of the list, in its order.
fn take_steps(tasks: &[Task], order: &[u64], state: &[u128], values: &mut [u128])
    ensures { values.new ≡ turns tasks.now state.now order.now values.old }
{
    for number in order {
        take_turn(tasks, *number, state, values);
    }
}

/// Takes a step of each process, in the plan's order.
pub fn settle(plan: &Plan, state: &Vec<u128>, values: &mut Vec<u128>)
    ensures { values.new.items ≡ turns plan.now.tasks.items state.now.items plan.now.order.items values.old.items }
{
    take_steps(
        plan.tasks.as_slice(),
        plan.order.as_slice(),
        state.as_slice(),
        values.as_mut_slice(),
    );
}

/// Takes these steps, and tells whether each process then shows the value of its right side.
pub fn settle_along(
    plan: &Plan,
    order: &[u64],
    state: &Vec<u128>,
    values: &mut Vec<u128>,
) -> Result<(), NotYet>
    ensures turns { values.new.items ≡ turns plan.now.tasks.items state.now.items order.now values.old.items }
    ensures settled { OnOk result (ShowFirst plan.now.tasks.items state.now.items values.new.items (length plan.now.tasks.items)) }
    ensures not_yet { IfErr result (IsFirstUnsettled plan.now.tasks.items state.now.items values.new.items) }
{
    take_steps(
        plan.tasks.as_slice(),
        order,
        state.as_slice(),
        values.as_mut_slice(),
    );
    match first_unsettled(plan.tasks.as_slice(), state.as_slice(), values.as_slice()) {
        None => Ok(()),
        Some(not_yet) => Err(not_yet),
    }
}

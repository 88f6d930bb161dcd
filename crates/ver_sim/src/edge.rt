//! An edge: the writes of all blocks that act, and then what registers show.

ghost use Rattle.std.specs.Prelude.{◌≡◌, IfErr, OnErr, OnOk, length};
ghost use Rattle.ver_sim.specs.working.FlatStates.{flat_all};
ghost use Rattle.ver_sim.specs.working.ShownWords.{words_put};
ghost use Rattle.ver_sim.specs.working.Turns.{ShowFirst, IsFirstUnsettled};
ghost use Rattle.ver_sim.specs.working.Blocks.{IsRising, all_block_puts};

use crate::blocks::take_blocks;
use crate::plan::Plan;
use crate::shown::show_words;
use crate::unsettled::{NotYet, first_unsettled};

/// Makes the writes of all blocks that act, and lets the registers without an asynchronous block show their words.
pub fn take_edges(plan: &Plan, named: &[usize], values: &mut Vec<u128>, state: &mut Vec<u128>)
    requires { IsRising named.now }
    ensures next { state.new.items ≡ flat_all (all_block_puts named.now values.old.items plan.now.blocks.items) state.old.items }
    ensures shown { values.new.items ≡ words_put plan.now.shown.items state.new.items values.old.items }
{
    take_blocks(
        plan.blocks.as_slice(),
        named,
        values.as_slice(),
        state.as_mut_slice(),
    );
    show_words(
        plan.shown.as_slice(),
        state.as_slice(),
        values.as_mut_slice(),
    );
}

/// The same, where every process shows the value of its right side. Else nothing is done, and the first is told
/// that does not.
pub fn take_settled_edges(
    plan: &Plan,
    named: &[usize],
    values: &mut Vec<u128>,
    state: &mut Vec<u128>,
) -> Result<(), NotYet>
    requires { IsRising named.now }
    ensures settled { OnOk result (ShowFirst plan.now.tasks.items state.old.items values.old.items (length plan.now.tasks.items)) }
    ensures next { OnOk result (state.new.items ≡ flat_all (all_block_puts named.now values.old.items plan.now.blocks.items) state.old.items) }
    ensures shown { OnOk result (values.new.items ≡ words_put plan.now.shown.items state.new.items values.old.items) }
    ensures unchanged { OnErr result ((state.new.items ≡ state.old.items) × (values.new.items ≡ values.old.items)) }
    ensures not_yet { IfErr result (IsFirstUnsettled plan.now.tasks.items state.old.items values.old.items) }
{
    if let Some(not_yet) = first_unsettled(
        plan.tasks.as_slice(),
        state.as_slice(),
        values.as_slice(),
    ) {
        return Err(not_yet);
    }
    take_edges(plan, named, values, state);
    Ok(())
}

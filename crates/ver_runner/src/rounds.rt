//! A tick whose processes take their steps in rounds of one list (IEEE 1364-2005, 11.4.2).

ghost use Rattle.std.specs.Prelude.{◌≡◌, IfErr, IfNone, IfOk, IfSome, OnErr, OnOk};
ghost use Rattle.ver_ast.specs.Allows.{VAllows};
ghost use Rattle.ver_ast.specs.ClockOutputs.{clocks_shown};
ghost use Rattle.ver_ast.specs.Valid.{Valid};
ghost use Rattle.ver_order.specs.working.Rounds.{IsRound};
ghost use Rattle.ver_order.specs.Rounds.{process_count};
ghost use Rattle.ver_sim.specs.working.NoValues.{LacksAtRest};
ghost use Rattle.ver_sim.specs.working.Views.{shown_env, shown_outputs, IsTickOf};
ghost use Rattle.ver_runner.specs.Counting.{CountsTick};
ghost use Rattle.ver_runner.specs.working.Settling.{ShowsFirstAfter, NeverShows};

use trace_text::Tick;
use ver_sim::{NoValue, VSim};

/// Takes rounds of the list until every process shows the value of its right side, one at least, and at most as many as
/// there are processes. Tells their number; None where then some process does not.
fn take_rounds(sim: &mut VSim, round: &[u64]) -> Option<u64>
    ensures tree { sim.new.tree ≡ sim.old.tree }
    ensures state { sim.new.state ≡ sim.old.state }
    ensures some { IfSome result (ShowsFirstAfter sim.old.tree sim.old.state round.now (shown_env sim.old) (shown_env sim.new)) }
    ensures none { IfNone result (NeverShows sim.old.tree sim.old.state round.now (shown_env sim.old) (shown_env sim.new)) }
{
    for taken in 0..sim.processes().max(1) {
        match sim.settle_by(round) {
            Ok(()) => return Some(taken + 1),
            Err(_) => {}
        }
    }
    None
}

/// Takes one tick: lets the inputs have its values, takes rounds of the list until the tick is settled, and takes the edge.
/// Tells the number of rounds. The outputs are then those of the tick, and the state the one after it. Where an item lacks
/// a value at rest, the place of the first is told, and the state is as before.
pub fn tick_in_rounds(sim: &mut VSim, tick: &Tick, round: &[u64]) -> Result<u64, NoValue>
    requires valid { Valid sim.old.tree }
    requires of_tree { IsTickOf sim.old.tree tick.now.tick }
    requires round { IsRound (process_count sim.old.tree) round.now }
    ensures tree { sim.new.tree ≡ sim.old.tree }
    ensures allows { OnOk result (VAllows sim.old.tree sim.old.state tick.now.tick (shown_outputs sim.new) (clocks_shown sim.old.tree) sim.new.state) }
    ensures counts { IfOk result (λ count. CountsTick sim.old.tree round.now sim.old.state tick.now.tick (shown_env sim.old) count sim.new.state (shown_env sim.new)) }
    ensures unchanged { OnErr result (sim.new.state ≡ sim.old.state) }
    ensures no_value { IfErr result (LacksAtRest sim.old.tree sim.old.state tick.now.tick) }
{
    sim.set(tick);
    let rounds = take_rounds(sim, round);
    if let Some(no_value) = sim.no_value(tick) {
        return Err(no_value);
    }
    let Some(count) = rounds else { unreachable!() };
    match sim.edge(tick) {
        Ok(()) => Ok(count),
        Err(_) => unreachable!(),
    }
}

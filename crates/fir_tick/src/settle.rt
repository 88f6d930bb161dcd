//! The values of a net's leaves and nodes, from those that they hang on and from the words of the state.

ghost use Rattle.std.specs.Prelude.{◌≡◌, ◌<◌, length, slice_set};
ghost use Rattle.fir_base.specs.Ticks.{FitEach};
ghost use Rattle.fir_net.specs.working.IsNet.{IsNet};
ghost use Rattle.fir_net.specs.working.Settled.{shape};
ghost use Rattle.fir_work.specs.working.Held.{IsHeld};
ghost use Rattle.fir_tick.specs.working.Settling.{IsSettled};
ghost use Rattle.fir_tick.specs.working.Steps.{given, CanGive, IsStepped};
ghost use Rattle.fir_tick.specs.working.Views.{numbers as words_of};

use crate::steps::Step;
use fir_bits::Bits;
use fir_bits::laws::has_its_type;
use fir_net::FlatNet;
use fir_net::laws::nodes_have_their_types;

/// Gives all leaves and nodes their values, by the steps of an order. It takes no memory.
pub fn settle(net: &FlatNet, steps: &[Step], state: &[Bits], numbers: &mut [u128])
    requires whole { IsNet net.now }
    requires stepped { IsStepped net.now steps.now }
    requires fits { FitEach (shape net.now).state (words_of state.now) }
    requires held { IsHeld net.now numbers.old }
    ensures { IsSettled net.now (words_of state.now) numbers.old numbers.new }
{
    has_its_type();
    nodes_have_their_types();
    for step in steps {
        take(net, step, state, numbers);
    }
}

/// Takes a step.
fn take(net: &FlatNet, step: &Step, state: &[Bits], numbers: &mut [u128])
    requires within { step.now.place < length numbers.old }
    requires can { CanGive net.now (length state.now) step.now.work numbers.old }
    ensures { numbers.new ≡ slice_set numbers.old step.now.place (given net.now (words_of state.now) step.now.work numbers.old) }
{
    numbers[step.place] = step.work.run(net, state, numbers);
}

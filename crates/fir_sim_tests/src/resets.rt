//! A few ticks of a net, against values that were worked out by hand.

ghost use Rattle.std.specs.Prelude.{IfOk};
ghost use Rattle.fir_net.specs.working.IsNet.{IsNet};
ghost use Rattle.fir_net.specs.working.IsOrder.{IsOrder};

use crate::nets::resets;
use fir_base::MemoryOut;
use fir_bits::Bits;
use fir_loop::{Order, order};
use fir_net::FlatNet;
use fir_sim::Sim;
use std::alloc::Global;
use std::test::Fail;
use trace_text::Init;

/// Each register is driven by the input. The first has a synchronous reset and a clock by a wire, the second
/// an asynchronous reset, and the third no clock.
#[test]
fn a_reset_wins_and_a_register_without_a_clock_holds(rt: HostRuntime) -> Result<(), Fail> {
    let net = resets(rt.alloc())?;
    let order = order_of(rt.alloc(), &net)?;
    let words = vec![in rt.alloc(); 0x1, 0x2, 0x3]?;
    let mut sim = Sim::new(rt.alloc(), net, order, &Init::new(words))?;
    // No edge and no reset.
    sim.step(&[0, 0x6], &[]);
    assert!(rt; shows(&sim, &[0x1, 0x2, 0x3], &[0x1, 0x2, 0x3]));
    sim.step(&[0, 0x6], &[0]);
    assert!(rt; shows(&sim, &[0x1, 0x2, 0x3], &[0x6, 0x6, 0x3]));
    // The asynchronous reset shows its init at once, and keeps it; the synchronous one wants an edge.
    sim.step(&[1, 0x5], &[]);
    assert!(rt; shows(&sim, &[0x6, 0x9, 0x3], &[0x6, 0x9, 0x3]));
    sim.step(&[1, 0x5], &[0]);
    assert!(rt; shows(&sim, &[0x6, 0x9, 0x3], &[0x9, 0x9, 0x3]));
    sim.step(&[0, 0x5], &[0]);
    assert!(rt; shows(&sim, &[0x9, 0x9, 0x3], &[0x5, 0x5, 0x3]));
    Ok(())
}

/// An order of a net that has one.
pub fn order_of(alloc: Global, net: &FlatNet) -> Result<Order, MemoryOut>
    requires { IsNet net.now }
    ensures { IfOk result (λ o. IsOrder net.now o) }
{
    match order(alloc, net) {
        Ok(order) => Ok(order),
        Err(_) => Err(MemoryOut),
    }
}

/// Whether a simulator shows these outputs and this state.
pub fn shows(sim: &Sim, outputs: &[u128], state: &[u128]) -> bool {
    are_numbers(sim.outputs(), outputs) && are_numbers(sim.state(), state)
}

fn are_numbers(values: &[Bits], numbers: &[u128]) -> bool {
    values.len() == numbers.len()
        && values
            .iter()
            .zip(numbers)
            .all(|(value, number)| value.bits() == *number)
}

//! A few ticks of a net with an array, against values that were worked out by hand.

use crate::array_nets::words;
use crate::resets::{order_of, shows};
use fir_sim::Sim;
use std::test::Fail;
use trace_text::Init;

#[test]
fn words_are_read_and_written(rt: HostRuntime) -> Result<(), Fail> {
    let net = words(rt.alloc())?;
    let order = order_of(rt.alloc(), &net)?;
    let init = vec![in rt.alloc(); 0x1, 0x2, 0x3]?;
    let mut sim = Sim::new(rt.alloc(), net, order, &Init::new(init))?;
    // Both writes act on one word: the later one counts, and what is read is the word before them.
    sim.step(&[1, 1, 1, 1, 0x5, 0x6, 1, 1], &[0, 1]);
    assert!(rt; shows(&sim, &[0x2], &[0x1, 0x6, 0x3]));
    // The clock of the second write is not named.
    sim.step(&[1, 1, 2, 2, 0x7, 0x8, 1, 1], &[0]);
    assert!(rt; shows(&sim, &[0x6], &[0x1, 0x6, 0x7]));
    // What is read stands past the end, and the condition of the first write is 0.
    sim.step(&[0, 1, 0, 0, 0x9, 0xa, 1, 3], &[0, 1]);
    assert!(rt; shows(&sim, &[0x0], &[0xa, 0x6, 0x7]));
    // What is read is not enabled, and the first write acts past the end.
    sim.step(&[1, 0, 3, 0, 0x9, 0x9, 0, 0], &[0, 1]);
    assert!(rt; shows(&sim, &[0x0], &[0xa, 0x6, 0x7]));
    // Without an edge nothing is written.
    sim.step(&[1, 1, 1, 2, 0x4, 0x5, 1, 0], &[]);
    assert!(rt; shows(&sim, &[0xa], &[0xa, 0x6, 0x7]));
    Ok(())
}

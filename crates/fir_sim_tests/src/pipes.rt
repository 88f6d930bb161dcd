//! A few ticks of a net with pipes, against values that were worked out by hand.

use crate::pipe_nets::pipes;
use crate::resets::{order_of, shows};
use fir_sim::Sim;
use std::test::Fail;
use trace_text::Init;

#[test]
fn pipes_take_old_words_or_new_ones(rt: HostRuntime) -> Result<(), Fail> {
    let net = pipes(rt.alloc())?;
    let order = order_of(rt.alloc(), &net)?;
    let init = vec![in rt.alloc(); 0x1, 0x2, 0x3, 0x4, 0x5, 0x6]?;
    let mut sim = Sim::new(rt.alloc(), net, order, &Init::new(init))?;
    // Both writes act on the word that is read, and the later one counts.
    sim.step(&[1, 1, 1, 1, 0x7, 0x8, 1, 1], &[0, 1]);
    assert!(rt; shows(&sim, &[0x1, 0x2], &[0x5, 0x8, 0x8, 0x4, 0x8, 0x6]));
    // The clock of the second write and of the last pipe is not named.
    sim.step(&[1, 1, 0, 2, 0x9, 0xa, 1, 0], &[0]);
    assert!(rt; shows(&sim, &[0x5, 0x8], &[0x4, 0x9, 0x8, 0x9, 0x8, 0x6]));
    // Nothing is enabled, and the second write acts on the word that would be read.
    sim.step(&[0, 1, 0, 2, 0x1, 0xb, 0, 2], &[0, 1]);
    assert!(rt; shows(&sim, &[0x4, 0x9], &[0x0, 0x0, 0x0, 0x9, 0x8, 0xb]));
    // Nothing is written.
    sim.step(&[0, 0, 0, 0, 0x1, 0x1, 1, 2], &[0, 1]);
    assert!(rt; shows(&sim, &[0x0, 0x0], &[0xb, 0xb, 0xb, 0x9, 0x8, 0xb]));
    // What is read and what is written stand past the end.
    sim.step(&[1, 0, 3, 0, 0xc, 0x1, 1, 3], &[0]);
    assert!(rt; shows(&sim, &[0xb, 0xb], &[0x0, 0x0, 0xb, 0x9, 0x8, 0xb]));
    // Without an edge nothing is taken.
    sim.step(&[1, 1, 0, 0, 0x1, 0x1, 1, 0], &[]);
    assert!(rt; shows(&sim, &[0x0, 0x0], &[0x0, 0x0, 0xb, 0x9, 0x8, 0xb]));
    // The other clock alone.
    sim.step(&[1, 1, 0, 0, 0x1, 0x2, 1, 0], &[1]);
    assert!(rt; shows(&sim, &[0x0, 0x0], &[0x0, 0x0, 0x2, 0x2, 0x8, 0xb]));
    Ok(())
}

//! The roots of a small net, against numbers that were worked out by hand.

use crate::clock_nets::clocks;
use fir_ast::LeafId;
use fir_clock_root::clock_root;
use std::test::Fail;

#[test]
fn a_chain_ends_at_a_clock_input_or_has_no_root(rt: HostRuntime) -> Result<(), Fail> {
    let net = clocks(rt.alloc())?;
    let roots = [
        Some(0),
        None,
        Some(1),
        Some(1),
        Some(1),
        Some(1),
        None,
        None,
        None,
        None,
        None,
        Some(0),
        // There is no such leaf.
        None,
    ];
    for (number, root) in roots.iter().enumerate() {
        assert!(rt; clock_root(&net, LeafId::new(number)) == *root);
    }
    Ok(())
}

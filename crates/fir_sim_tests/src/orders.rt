//! The order of a small net.

use crate::init_nets::word;
use crate::resets::order_of;
use fir_ast::LeafId;
use fir_net::Read;
use std::test::Fail;

/// A word of an array stands behind its address and its enable; what is written hangs on it, and closes no circle.
#[test]
fn a_word_of_an_array_stands_behind_its_address(rt: HostRuntime) -> Result<(), Fail> {
    let net = word(rt.alloc())?;
    let order = order_of(rt.alloc(), &net)?;
    let data = place(order.as_slice(), 4);
    assert!(rt; data < order.as_slice().len());
    assert!(rt; place(order.as_slice(), 5) < data);
    assert!(rt; place(order.as_slice(), 1) < data);
    Ok(())
}

/// Where the leaf of that number stands; behind the end where it does not.
fn place(order: &[Read], leaf: usize) -> usize {
    order
        .iter()
        .position(|read| *read == Read::Leaf(LeafId::new(leaf)))
        .unwrap_or(order.len())
}

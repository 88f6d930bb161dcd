//! The inits of small nets, against walks and numbers that were worked out by hand.

use crate::init_nets::{Varied, registers, ring, word};
use crate::resets::order_of;
use fir_ast::{FirFault, LeafId};
use fir_inits::{init_fault, init_values};
use fir_net::ResetKind;
use std::test::Fail;

/// What a constant gives through wires, an operator and a mux, cut to the register's width.
#[test]
fn constants_have_their_numbers(rt: HostRuntime) -> Result<(), Fail> {
    let net = registers(rt.alloc(), at_once(2), at_once(3), late(4), late(5))?;
    assert!(rt; init_fault(rt.alloc(), &net)?.is_none());
    let order = order_of(rt.alloc(), &net)?;
    let values = init_values(rt.alloc(), &net, order.as_slice())?;
    let numbers = [0, 0, 0, 0x2, 0x6, 0, 0, 0, 0, 0, 0];
    for (leaf, number) in numbers.iter().enumerate() {
        assert!(rt; values.get(LeafId::new(leaf)) == *number);
    }
    Ok(())
}

/// The walk through the wire w alone is shorter than the one through v and w.
#[test]
fn the_shortest_walk_to_an_input_is_told(rt: HostRuntime) -> Result<(), Fail> {
    let net = registers(rt.alloc(), at_once(2), at_once(3), at_once(4), late(5))?;
    assert!(rt; tells(&init_fault(rt.alloc(), &net)?, 4, b"wi"));
    Ok(())
}

#[test]
fn the_first_register_by_its_place_is_told(rt: HostRuntime) -> Result<(), Fail> {
    let net = registers(rt.alloc(), at_once(2), at_once(3), at_once(5), at_once(4))?;
    // It reads itself.
    assert!(rt; tells(&init_fault(rt.alloc(), &net)?, 4, b"b"));
    let net = registers(rt.alloc(), at_once(2), at_once(3), at_once(4), at_once(4))?;
    assert!(rt; tells(&init_fault(rt.alloc(), &net)?, 4, b"wi"));
    Ok(())
}

#[test]
fn a_ring_reaches_no_input(rt: HostRuntime) -> Result<(), Fail> {
    let net = ring(rt.alloc())?;
    assert!(rt; init_fault(rt.alloc(), &net)?.is_none());
    Ok(())
}

#[test]
fn a_walk_ends_at_a_word_of_an_array(rt: HostRuntime) -> Result<(), Fail> {
    let net = word(rt.alloc())?;
    assert!(rt; tells(&init_fault(rt.alloc(), &net)?, 2, b"ud"));
    Ok(())
}

fn at_once(line: u32) -> Varied {
    Varied {
        line,
        kind: ResetKind::Asynchronous,
    }
}

fn late(line: u32) -> Varied {
    Varied {
        line,
        kind: ResetKind::Synchronous,
    }
}

/// Whether the fault stands at that line, with a walk of leaves of these names.
fn tells(fault: &Option<FirFault>, line: u32, walk: &[u8]) -> bool {
    match fault {
        Some(FirFault::AsyncInit(place, paths)) => {
            let paths = paths.as_slice();
            place.line == line
                && paths.len() == walk.len()
                && paths
                    .iter()
                    .zip(walk)
                    .all(|(path, name)| path.as_bytes() == [*name].as_slice())
        }
        _ => false,
    }
}

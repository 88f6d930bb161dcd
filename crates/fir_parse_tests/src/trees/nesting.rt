//! Trees of the greatest nesting.

use crate::trees::short_form::Form;
use crate::trees::tree_of;
use fir_base::MemoryOut;
use std::alloc::Global;
use std::test::Fail;

const HEAD: &[u8] = b"circuit T :\n  module M :\n";

/// What stands before a nesting, what opens each of its forms, what stands within, and what closes each.
type Nesting = (&'static [u8], &'static [u8], &'static [u8], &'static [u8]);

const NESTINGS: &[Nesting] = &[
    (b"    node n = ", b"not(", b"a", b")"),
    (b"    node n = ", b"a[", b"a", b"]"),
    (b"    wire w : UInt", b"[1]", b"", b""),
    (b"    wire w : ", b"{a:", b"Clock", b"}"),
    (b"    when a :\n", b"    else when a :\n", b"", b""),
];

/// A module with that nesting of 255 forms around what stands within.
fn nested(alloc: Global, nesting: &Nesting) -> Result<Vec<u8>, MemoryOut> {
    let (before, open, inner, close) = *nesting;
    let mut text = Form::new(alloc);
    text.put(HEAD);
    text.put(before);
    text.put_times(open, 255);
    text.put(inner);
    text.put_times(close, 255);
    text.put(b"\n");
    text.into_bytes()
}

/// A module with 256 lines `when a :`, each in the one before.
fn whens(alloc: Global) -> Result<Vec<u8>, MemoryOut> {
    let mut text = Form::new(alloc);
    text.put(HEAD);
    for level in 0..256 {
        text.put(b"    ");
        text.put_times(b"  ", level);
        text.put(b"when a :\n");
    }
    text.into_bytes()
}

fn has_tree(alloc: Global, text: Vec<u8>) -> Result<bool, MemoryOut> {
    Ok(tree_of(alloc, text.as_slice())?.starts_with(b"T@"))
}

#[test]
fn trees_of_the_greatest_nesting_are_dropped_without_want_of_stack(
    rt: HostRuntime,
) -> Result<(), Fail> {
    let alloc = rt.alloc();
    for nesting in NESTINGS {
        assert!(rt; has_tree(alloc, nested(alloc, nesting)?)?);
    }
    assert!(rt; has_tree(alloc, whens(alloc)?)?);
    Ok(())
}

//! `compile` with ample memory: a text that is taken, one that is refused, and one in a form that is still to come.

use fir_base::{MemoryOut, Refused};
use fir_compile::compile;
use fir_fault_text::put_fault_line;
use std::alloc::Global;
use std::test::Fail;

/// The line of the fault of a text; nothing where it is compiled.
fn told(alloc: Global, text: &[u8]) -> Result<Vec<u8>, MemoryOut> {
    let mut line = Vec::new(alloc);
    if text.len() > 16777216 {
        return Ok(line);
    }
    match compile(alloc, text) {
        Ok(_compiled) => {}
        Err(Refused::Fault(fault)) => put_fault_line(&fault, alloc, &mut line)?,
        Err(Refused::Memory) => return Err(MemoryOut),
    }
    Ok(line)
}

#[test]
fn a_text_is_compiled_or_its_fault_is_told(rt: HostRuntime) -> Result<(), Fail> {
    let taken = told(
        rt.alloc(),
        b"circuit T :\n  module T :\n    input a : UInt<2>\n    output o : UInt<2>\n    o <= not(a)\n",
    )?;
    assert_eq!(rt; taken.len(), 0);
    let refused = told(rt.alloc(), b"circuit T :\n  module S :\n")?;
    assert!(rt; refused.as_slice() == b"E10 1:9 no module T\n".as_slice());
    let with_memory = told(
        rt.alloc(),
        b"circuit T :\n  module T :\n    mem m :\n      data-type => UInt<4>\n      depth => 8\n      read-latency => 1\n      write-latency => 1\n",
    )?;
    assert_eq!(rt; with_memory.len(), 0);
    Ok(())
}

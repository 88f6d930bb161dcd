//! The lines of faults that no text shows yet, against lines that were written by hand.

use fir_ast::{FirFault, Place};
use fir_base::{MemoryOut, Name, Seq};
use fir_fault_text::put_fault_line;
use std::alloc::Global;
use std::test::Fail;

#[test]
fn lines_of_faults_that_no_text_shows_yet(rt: HostRuntime) -> Result<(), Fail> {
    let alloc = rt.alloc();
    let byte = FirFault::Byte(at(4294967295, 4294967295), 255);
    assert!(rt; has_line(alloc, byte, b"E01 4294967295:4294967295 byte ff\n")?);
    let clock = FirFault::Clock(at(25, 5), name(alloc, b"u.clk")?, at(25, 5), at(26, 5));
    assert!(rt; has_line(alloc, clock, b"E25 25:5 clock u.clk 25:5 26:5\n")?);
    let memory = memory_clocks(alloc)?;
    assert!(rt; has_line(alloc, memory, b"E26 27:9 memory clocks u.ram clock c2\n")?);
    let walk = async_init(alloc, &[b"r", b"n.a", b"in"])?;
    assert!(rt; has_line(alloc, walk, b"E27 28:9 async init r <- n.a <- in\n")?);
    let alone = async_init(alloc, &[b"r"])?;
    assert!(rt; has_line(alloc, alone, b"E27 28:9 async init r\n")?);
    Ok(())
}

fn has_line(alloc: Global, fault: FirFault, wanted: &[u8]) -> Result<bool, MemoryOut> {
    let mut line = Vec::new(alloc);
    match put_fault_line(&fault, alloc, &mut line) {
        Ok(()) => Ok(line.as_slice() == wanted),
        Err(out) => Err(out),
    }
}

fn memory_clocks(alloc: Global) -> Result<FirFault, MemoryOut> {
    let memory = name(alloc, b"u.ram")?;
    Ok(FirFault::MemoryClocks(
        at(27, 9),
        memory,
        name(alloc, b"clock")?,
        name(alloc, b"c2")?,
    ))
}

fn async_init(alloc: Global, walk: &[&[u8]]) -> Result<FirFault, MemoryOut> {
    let mut names = Vec::new(alloc);
    for text in walk {
        names.push(name(alloc, text)?)?;
    }
    Ok(FirFault::AsyncInit(at(28, 9), Seq::from_vec(names)))
}

fn at(line: u32, col: u32) -> Place {
    Place { line, col }
}

fn name(alloc: Global, text: &[u8]) -> Result<Name, MemoryOut> {
    Name::new(alloc, text)
}

//! The lines of faults of Verilog texts, against lines that were written by hand.

use fir_base::{MemoryOut, Name, Seq};
use std::alloc::Global;
use std::test::Fail;
use ver_ast::VPlace;
use ver_fault::VerFault;

#[test]
fn lines_of_verilog_faults(rt: HostRuntime) -> Result<(), Fail> {
    let alloc = rt.alloc();
    let low = VerFault::Byte {
        place: at(2, 5),
        byte: 39,
    };
    assert!(rt; has_line(alloc, low, b"V01 2:5 byte 27\n")?);
    let high = VerFault::Byte {
        place: at(4294967295, 4294967295),
        byte: 239,
    };
    assert!(rt; has_line(alloc, high, b"V01 4294967295:4294967295 byte ef\n")?);
    let syntax = VerFault::Syntax { place: at(1, 9) };
    assert!(rt; has_line(alloc, syntax, b"V02 1:9 syntax\n")?);
    let depth = VerFault::Depth { place: at(1, 400) };
    assert!(rt; has_line(alloc, depth, b"V07 1:400 depth 257\n")?);
    let width = VerFault::Width {
        place: at(3, 10),
        needed: 4,
        found: 8,
    };
    assert!(rt; has_line(alloc, width, b"V04 3:10 width 4 8\n")?);
    let kind = VerFault::Kind { place: at(3, 10) };
    assert!(rt; has_line(alloc, kind, b"V04 3:10 kind\n")?);
    Ok(())
}

#[test]
fn lines_of_verilog_faults_with_names(rt: HostRuntime) -> Result<(), Fail> {
    let alloc = rt.alloc();
    let undeclared = VerFault::Undeclared {
        place: at(3, 10),
        name: Name::new(alloc, b"x")?,
    };
    assert!(rt; has_line(alloc, undeclared, b"V03 3:10 undeclared x\n")?);
    let twice = VerFault::Twice {
        place: at(3, 10),
        name: Name::new(alloc, b"x")?,
        first: at(2, 8),
    };
    assert!(rt; has_line(alloc, twice, b"V05 3:10 twice x 2:8\n")?);
    let undriven = VerFault::Undriven {
        place: at(2, 8),
        name: Name::new(alloc, b"x")?,
    };
    assert!(rt; has_line(alloc, undriven, b"V08 2:8 undriven x\n")?);
    let walk = walk_of(alloc, &[b"a", b"b", b"a"])?;
    assert!(rt; has_line(alloc, walk, b"V06 3:3 loop a <- b <- a\n")?);
    let alone = walk_of(alloc, &[b"x", b"x"])?;
    assert!(rt; has_line(alloc, alone, b"V06 3:3 loop x <- x\n")?);
    Ok(())
}

fn has_line(alloc: Global, fault: VerFault, wanted: &[u8]) -> Result<bool, MemoryOut> {
    let mut line = Vec::new(alloc);
    match fault.put_line(alloc, &mut line) {
        Ok(()) => Ok(line.as_slice() == wanted),
        Err(out) => Err(out),
    }
}

fn walk_of(alloc: Global, texts: &[&[u8]]) -> Result<VerFault, MemoryOut> {
    let mut names = Vec::new(alloc);
    for text in texts {
        names.push(Name::new(alloc, text)?)?;
    }
    Ok(VerFault::Loop {
        place: at(3, 3),
        walk: Seq::from_vec(names),
    })
}

fn at(line: u32, col: u32) -> VPlace {
    VPlace { line, col }
}

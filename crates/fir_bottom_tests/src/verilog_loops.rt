//! Closed walks in Verilog trees. But in the first test the place number k of a tree, from 1, is line 1, column k.

use crate::verilog_trees::{assign, net, port};
use fir_base::{Direction, MemoryOut, Name, Refused, Seq};
use std::alloc::Global;
use std::test::Fail;
use ver_ast::{
    Always, BinaryOp, Constant, Edge, Item, Net, Port, Resetting, Rhs, UnaryOp, VPlace, Verilog,
};
use ver_check::check;
use ver_loop::check_loops;

/// `module t(input clock, input i, output o);` with these items: the first one begins at place 10.
fn has_line(alloc: Global, items: Vec<Item>, wanted: &[u8]) -> Result<bool, MemoryOut> {
    let mut places = Vec::new(alloc);
    for col in 1..100 {
        places.push(VPlace { line: 1, col })?;
    }
    let mut ports = Vec::new(alloc);
    ports.push(clock(alloc)?)?;
    ports.push(port(alloc, Direction::Input, 1, b"i")?)?;
    ports.push(port(alloc, Direction::Output, 1, b"o")?)?;
    shows(alloc, ports, items, places, wanted)
}

/// Whether a tree with these ports, items and places has this line of a closed walk, or none where that is empty.
fn shows(
    alloc: Global,
    ports: Vec<Port>,
    items: Vec<Item>,
    places: Vec<VPlace>,
    wanted: &[u8],
) -> Result<bool, MemoryOut> {
    let tree = Verilog {
        name: Name::new(alloc, b"t")?,
        ports: Seq::from_vec(ports),
        items: Seq::from_vec(items),
        places: Seq::from_vec(places),
    };
    let mut line = Vec::new(alloc);
    match check(alloc, &tree) {
        Ok(()) => match check_loops(alloc, &tree) {
            Ok(()) => (),
            Err(Refused::Fault(fault)) => fault.put_line(alloc, &mut line)?,
            Err(Refused::Memory) => return Err(MemoryOut),
        },
        Err(Refused::Fault(fault)) => fault.put_line(alloc, &mut line)?,
        Err(Refused::Memory) => return Err(MemoryOut),
    }
    Ok(line.as_slice() == wanted)
}

fn clock(alloc: Global) -> Result<Port, MemoryOut> {
    Ok(Port {
        is_clock: true,
        direction: Direction::Input,
        width: 1,
        name: Name::new(alloc, b"clock")?,
    })
}

fn wire(alloc: Global, name: &[u8]) -> Result<Item, MemoryOut> {
    Ok(Item::Wire(declared(alloc, name)?))
}

fn reg(alloc: Global, name: &[u8]) -> Result<Item, MemoryOut> {
    Ok(Item::Reg(declared(alloc, name)?))
}

fn declared(alloc: Global, name: &[u8]) -> Result<Net, MemoryOut> {
    Ok(Net {
        width: 1,
        name: Name::new(alloc, name)?,
    })
}

/// `assign target = source;`, of 3 places.
fn copied(alloc: Global, target: &[u8], source: &[u8]) -> Result<Item, MemoryOut> {
    assign(alloc, target, Rhs::Atom(net(alloc, source)?))
}

/// `always @(posedge reset) if (reset) r <= 1'h0;`, or with a clock and what `r` takes at its edge.
fn resetting(alloc: Global, reset: &[u8], edge: Option<Edge>) -> Result<Item, MemoryOut> {
    Ok(Item::Resetting(Resetting {
        reset: Name::new(alloc, reset)?,
        tested: Name::new(alloc, reset)?,
        target: Name::new(alloc, b"r")?,
        value: Constant {
            width: 1,
            number: Some(0),
        },
        edge,
    }))
}

#[test]
fn a_net_that_depends_on_itself(rt: HostRuntime) -> Result<(), Fail> {
    let alloc = rt.alloc();
    // module t(output o);
    //   assign o = ~o;
    // endmodule
    let mut places = Vec::new(alloc);
    for (line, col) in [
        (1, 1),
        (1, 8),
        (1, 10),
        (1, 17),
        (2, 3),
        (2, 10),
        (2, 15),
        (3, 1),
    ] {
        places.push(VPlace { line, col })?;
    }
    let mut ports = Vec::new(alloc);
    ports.push(port(alloc, Direction::Output, 1, b"o")?)?;
    let mut items = Vec::new(alloc);
    items.push(assign(alloc, b"o", Rhs::Unary(UnaryOp::Not, net(alloc, b"o")?))?)?;
    assert!(rt; shows(alloc, ports, items, places, b"V06 2:3 loop o <- o\n")?);
    Ok(())
}

#[test]
fn rings_of_assigns(rt: HostRuntime) -> Result<(), Fail> {
    let alloc = rt.alloc();
    let mut items = Vec::new(alloc);
    items.push(wire(alloc, b"p")?)?;
    items.push(wire(alloc, b"q")?)?;
    items.push(copied(alloc, b"o", b"p")?)?;
    items.push(copied(alloc, b"p", b"q")?)?;
    items.push(copied(alloc, b"q", b"o")?)?;
    assert!(rt; has_line(alloc, items, b"V06 1:14 loop o <- p <- q <- o\n")?);
    // `o` reads the ring of `p` and `q`, and is not in it.
    let mut items = Vec::new(alloc);
    items.push(wire(alloc, b"p")?)?;
    items.push(wire(alloc, b"q")?)?;
    items.push(copied(alloc, b"o", b"p")?)?;
    items.push(copied(alloc, b"p", b"q")?)?;
    items.push(copied(alloc, b"q", b"p")?)?;
    assert!(rt; has_line(alloc, items, b"V06 1:17 loop p <- q <- p\n")?);
    Ok(())
}

#[test]
fn the_shortest_ring_is_told(rt: HostRuntime) -> Result<(), Fail> {
    let alloc = rt.alloc();
    let mut items = Vec::new(alloc);
    items.push(wire(alloc, b"p")?)?;
    items.push(wire(alloc, b"q")?)?;
    items.push(wire(alloc, b"s")?)?;
    let both = Rhs::Binary(net(alloc, b"p")?, BinaryOp::And, net(alloc, b"s")?);
    items.push(assign(alloc, b"o", both)?)?;
    items.push(copied(alloc, b"p", b"q")?)?;
    items.push(copied(alloc, b"q", b"o")?)?;
    items.push(copied(alloc, b"s", b"o")?)?;
    assert!(rt; has_line(alloc, items, b"V06 1:16 loop o <- s <- o\n")?);
    Ok(())
}

#[test]
fn a_ring_through_an_asynchronous_reset(rt: HostRuntime) -> Result<(), Fail> {
    let alloc = rt.alloc();
    let mut items = Vec::new(alloc);
    items.push(reg(alloc, b"r")?)?;
    items.push(wire(alloc, b"a")?)?;
    items.push(copied(alloc, b"a", b"r")?)?;
    items.push(resetting(alloc, b"a", None)?)?;
    items.push(copied(alloc, b"o", b"i")?)?;
    assert!(rt; has_line(alloc, items, b"V06 1:14 loop a <- r <- a\n")?);
    // Met from `o`, which reads `r`, the ring begins at the block of `r`.
    let mut items = Vec::new(alloc);
    items.push(reg(alloc, b"r")?)?;
    items.push(wire(alloc, b"a")?)?;
    items.push(resetting(alloc, b"a", None)?)?;
    items.push(copied(alloc, b"o", b"r")?)?;
    items.push(copied(alloc, b"a", b"r")?)?;
    assert!(rt; has_line(alloc, items, b"V06 1:14 loop r <- a <- r\n")?);
    Ok(())
}

#[test]
fn no_ring_through_a_clocked_register(rt: HostRuntime) -> Result<(), Fail> {
    let alloc = rt.alloc();
    let mut items = Vec::new(alloc);
    items.push(reg(alloc, b"r")?)?;
    items.push(assign(alloc, b"o", Rhs::Unary(UnaryOp::Not, net(alloc, b"r")?))?)?;
    items.push(Item::Always(Always {
        clock: Name::new(alloc, b"clock")?,
        target: Name::new(alloc, b"r")?,
        source: net(alloc, b"o")?,
    }))?;
    assert!(rt; has_line(alloc, items, b"")?);
    // What a register with an asynchronous reset takes at its clock's edge is no dependence either.
    let edge = Edge {
        clock: Name::new(alloc, b"clock")?,
        target: Name::new(alloc, b"r")?,
        source: net(alloc, b"o")?,
    };
    let mut items = Vec::new(alloc);
    items.push(reg(alloc, b"r")?)?;
    items.push(copied(alloc, b"o", b"r")?)?;
    items.push(resetting(alloc, b"i", Some(edge))?)?;
    assert!(rt; has_line(alloc, items, b"")?);
    Ok(())
}

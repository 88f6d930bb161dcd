//! The judge of Verilog trees, which no command calls yet.

use fir_base::{Direction, MemoryOut, Name, Seq};
use std::alloc::Global;
use std::test::Fail;
use ver_ast::{Assign, Atom, AtomForm, Item, Port, Rhs, Verilog};
use ver_valid::valid;

#[test]
fn an_output_has_just_one_assign(rt: HostRuntime) -> Result<(), Fail> {
    let undriven = copies(rt.alloc(), 0)?;
    let driven = copies(rt.alloc(), 1)?;
    let driven_twice = copies(rt.alloc(), 2)?;
    assert!(rt; !valid(rt.alloc(), &undriven)?);
    assert!(rt; valid(rt.alloc(), &driven)?);
    assert!(rt; !valid(rt.alloc(), &driven_twice)?);
    Ok(())
}

/// `module t(input a, output o);`, so many times `assign o = a;`, and `endmodule`.
fn copies(alloc: Global, assigns: usize) -> Result<Verilog, MemoryOut> {
    let mut items = Vec::new(alloc);
    for _ in 0..assigns {
        items.push(copied(alloc)?)?;
    }
    let mut ports = Vec::new(alloc);
    ports.push(port(alloc, Direction::Input, b"a")?)?;
    ports.push(port(alloc, Direction::Output, b"o")?)?;
    Ok(Verilog {
        name: Name::new(alloc, b"t")?,
        ports: Seq::from_vec(ports),
        items: Seq::from_vec(items),
        places: Seq::from_vec(Vec::new(alloc)),
    })
}

fn port(alloc: Global, direction: Direction, name: &[u8]) -> Result<Port, MemoryOut> {
    Ok(Port {
        is_clock: false,
        direction,
        width: 1,
        name: Name::new(alloc, name)?,
    })
}

fn copied(alloc: Global) -> Result<Item, MemoryOut> {
    let form = AtomForm::Net(Name::new(alloc, b"a")?);
    Ok(Item::Assign(Assign {
        target: Name::new(alloc, b"o")?,
        rhs: Rhs::Atom(Atom { form }),
    }))
}

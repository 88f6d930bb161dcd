//! The first faults of Verilog trees. The place number k of a tree, from 1, is here line 1, column k.

use fir_base::{Direction, MemoryOut, Name, Refused, Seq};
use std::alloc::Global;
use std::test::Fail;
use ver_ast::{Assign, Atom, AtomForm, BinaryOp, Constant, Item, Net, Port, Rhs, VPlace, Verilog};
use ver_check::check;

/// `module t(input a, input [7:0] b, output o, output [7:0] p);` with these items: of its places the names of the ports have
/// the columns 4, 9, 11 and 16, and the first item begins at column 17.
fn has_line(alloc: Global, items: Vec<Item>, wanted: &[u8]) -> Result<bool, MemoryOut> {
    let mut places = Vec::new(alloc);
    for col in 1..100 {
        places.push(VPlace { line: 1, col })?;
    }
    let mut ports = Vec::new(alloc);
    ports.push(port(alloc, Direction::Input, 1, b"a")?)?;
    ports.push(port(alloc, Direction::Input, 8, b"b")?)?;
    ports.push(port(alloc, Direction::Output, 1, b"o")?)?;
    ports.push(port(alloc, Direction::Output, 8, b"p")?)?;
    let tree = Verilog {
        name: Name::new(alloc, b"t")?,
        ports: Seq::from_vec(ports),
        items: Seq::from_vec(items),
        places: Seq::from_vec(places),
    };
    let mut line = Vec::new(alloc);
    match check(alloc, &tree) {
        Ok(()) => (),
        Err(Refused::Fault(fault)) => fault.put_line(alloc, &mut line)?,
        Err(Refused::Memory) => return Err(MemoryOut),
    }
    Ok(line.as_slice() == wanted)
}

pub fn port(
    alloc: Global,
    direction: Direction,
    width: u32,
    name: &[u8],
) -> Result<Port, MemoryOut> {
    Ok(Port {
        is_clock: false,
        direction,
        width,
        name: Name::new(alloc, name)?,
    })
}

pub fn net(alloc: Global, name: &[u8]) -> Result<Atom, MemoryOut> {
    Ok(Atom {
        form: AtomForm::Net(Name::new(alloc, name)?),
    })
}

fn constant(width: u32, number: u128) -> Atom {
    Atom {
        form: AtomForm::Constant(Constant {
            width,
            number: Some(number),
        }),
    }
}

fn beside(alloc: Global, one: Atom, two: Atom) -> Result<Atom, MemoryOut> {
    let mut rest = Vec::new(alloc);
    rest.push(two)?;
    Ok(Atom {
        form: AtomForm::Concat(Box::new(alloc, one)?, rest),
    })
}

pub fn assign(alloc: Global, target: &[u8], rhs: Rhs) -> Result<Item, MemoryOut> {
    Ok(Item::Assign(Assign {
        target: Name::new(alloc, target)?,
        rhs,
    }))
}

/// `assign o = a; assign p = b;`, of 3 places each.
fn sound(alloc: Global) -> Result<Vec<Item>, MemoryOut> {
    let mut items = Vec::new(alloc);
    items.push(assign(alloc, b"o", Rhs::Atom(net(alloc, b"a")?))?)?;
    items.push(assign(alloc, b"p", Rhs::Atom(net(alloc, b"b")?))?)?;
    Ok(items)
}

/// One item alone.
fn only(alloc: Global, item: Item) -> Result<Vec<Item>, MemoryOut> {
    let mut items = Vec::new(alloc);
    items.push(item)?;
    Ok(items)
}

/// One item behind the two sound assigns, whose first place has column 23.
fn behind(alloc: Global, item: Item) -> Result<Vec<Item>, MemoryOut> {
    let mut items = sound(alloc)?;
    items.push(item)?;
    Ok(items)
}

#[test]
fn every_output_has_one_assign(rt: HostRuntime) -> Result<(), Fail> {
    let alloc = rt.alloc();
    assert!(rt; has_line(alloc, sound(alloc)?, b"")?);
    assert!(rt; has_line(alloc, Vec::new(alloc), b"V08 1:11 undriven o\n")?);
    let one = assign(alloc, b"o", Rhs::Atom(net(alloc, b"a")?))?;
    assert!(rt; has_line(alloc, only(alloc, one)?, b"V08 1:16 undriven p\n")?);
    let second = assign(alloc, b"o", Rhs::Atom(net(alloc, b"a")?))?;
    assert!(rt; has_line(alloc, behind(alloc, second)?, b"V05 1:24 twice o 1:18\n")?);
    let input = assign(alloc, b"a", Rhs::Atom(constant(1, 0)))?;
    assert!(rt; has_line(alloc, behind(alloc, input)?, b"V05 1:24 twice a 1:4\n")?);
    Ok(())
}

#[test]
fn names_are_declared_once_and_before(rt: HostRuntime) -> Result<(), Fail> {
    let alloc = rt.alloc();
    let unknown = assign(alloc, b"o", Rhs::Atom(net(alloc, b"c")?))?;
    assert!(rt; has_line(alloc, only(alloc, unknown)?, b"V03 1:19 undeclared c\n")?);
    let again = Item::Wire(Net {
        width: 1,
        name: Name::new(alloc, b"a")?,
    });
    assert!(rt; has_line(alloc, behind(alloc, again)?, b"V05 1:24 twice a 1:4\n")?);
    // A range of 129 bits comes before the name that is declared twice.
    let wide = Item::Wire(Net {
        width: 129,
        name: Name::new(alloc, b"a")?,
    });
    assert!(rt; has_line(alloc, behind(alloc, wide)?, b"V04 1:25 kind\n")?);
    Ok(())
}

#[test]
fn widths_fit_the_target(rt: HostRuntime) -> Result<(), Fail> {
    let alloc = rt.alloc();
    let narrow = assign(alloc, b"p", Rhs::Atom(net(alloc, b"a")?))?;
    assert!(rt; has_line(alloc, only(alloc, narrow)?, b"V04 1:19 width 8 1\n")?);
    // A constant that its size does not fit and that has another width than is needed shows its width.
    let both = assign(alloc, b"o", Rhs::Atom(constant(2, 7)))?;
    assert!(rt; has_line(alloc, only(alloc, both)?, b"V04 1:19 width 1 2\n")?);
    let unfit = assign(alloc, b"o", Rhs::Atom(constant(1, 2)))?;
    assert!(rt; has_line(alloc, only(alloc, unfit)?, b"V04 1:19 kind\n")?);
    // A comparison has one bit, which its target shows.
    let compared = Rhs::Binary(net(alloc, b"b")?, BinaryOp::Lt, net(alloc, b"b")?);
    let item = assign(alloc, b"p", compared)?;
    assert!(rt; has_line(alloc, only(alloc, item)?, b"V04 1:18 width 1 8\n")?);
    // Compared operands have the first one's width.
    let unequal = Rhs::Binary(net(alloc, b"b")?, BinaryOp::Eq, net(alloc, b"a")?);
    let item = assign(alloc, b"o", unequal)?;
    assert!(rt; has_line(alloc, only(alloc, item)?, b"V04 1:20 width 8 1\n")?);
    // The amount of a shift may have any width, the value has the target's.
    let shifted = Rhs::Binary(net(alloc, b"b")?, BinaryOp::Shl, net(alloc, b"a")?);
    let item = assign(alloc, b"p", shifted)?;
    assert!(rt; has_line(alloc, only(alloc, item)?, b"V08 1:11 undriven o\n")?);
    Ok(())
}

#[test]
fn a_concatenation_comes_before_its_parts(rt: HostRuntime) -> Result<(), Fail> {
    let alloc = rt.alloc();
    // `{a, 2'h7}`: the whole has 3 bits where 8 are needed, before the constant that does not fit.
    let wrong = beside(alloc, net(alloc, b"a")?, constant(2, 7))?;
    let item = assign(alloc, b"p", Rhs::Atom(wrong))?;
    assert!(rt; has_line(alloc, only(alloc, item)?, b"V04 1:19 width 8 3\n")?);
    // With a name that is not declared it has no width.
    let unknown = beside(alloc, constant(2, 7), net(alloc, b"c")?)?;
    let item = assign(alloc, b"p", Rhs::Atom(unknown))?;
    assert!(rt; has_line(alloc, only(alloc, item)?, b"V04 1:20 kind\n")?);
    let declared = beside(alloc, constant(2, 3), net(alloc, b"c")?)?;
    let item = assign(alloc, b"p", Rhs::Atom(declared))?;
    assert!(rt; has_line(alloc, only(alloc, item)?, b"V03 1:21 undeclared c\n")?);
    Ok(())
}

#[test]
fn selects_are_within_vectors(rt: HostRuntime) -> Result<(), Fail> {
    let alloc = rt.alloc();
    // `a[0]` of a net without a range, and `b[3:5]`, which has no width.
    let form = AtomForm::BitSelect(Name::new(alloc, b"a")?, 0);
    let item = assign(alloc, b"o", Rhs::Atom(Atom { form }))?;
    assert!(rt; has_line(alloc, only(alloc, item)?, b"V04 1:19 kind\n")?);
    let form = AtomForm::PartSelect(Name::new(alloc, b"b")?, 3, 5);
    let item = assign(alloc, b"p", Rhs::Atom(Atom { form }))?;
    assert!(rt; has_line(alloc, only(alloc, item)?, b"V04 1:19 kind\n")?);
    let form = AtomForm::BitSelect(Name::new(alloc, b"b")?, 7);
    let item = assign(alloc, b"o", Rhs::Atom(Atom { form }))?;
    assert!(rt; has_line(alloc, only(alloc, item)?, b"V08 1:16 undriven p\n")?);
    Ok(())
}

//! Which task drives each place, and the tasks that drive what another reads.

ghost use Rattle.std.specs.Prelude.{◌≡◌, ◌++◌, [], ◌∷◌, IfOk, OnOk, flat_map, length, slice_set, Some};
ghost use Rattle.ver_sim.specs.working.Operands.{operand_places};
ghost use Rattle.ver_sim.specs.working.Orders.{AreDrivers, HaveTargets, driver_at, drivers_of};
ghost use Rattle.ver_sim.specs.working.Pieces.{piece_places};
ghost use Rattle.ver_sim.specs.working.Works.{work_places};

use crate::operand::Operand;
use crate::piece::Piece;
use crate::task::Task;
use crate::work::Work;
use fir_base::{MemoryOut, Seq};
use std::alloc::Global;

/// For each of so many places the number of the task whose target it is.
pub fn drivers_by_place(
    alloc: Global,
    tasks: &[Task],
    places: usize,
) -> Result<Vec<Option<usize>>, MemoryOut>
    requires { HaveTargets tasks.now places }
    ensures { IfOk result (λ drivers. AreDrivers tasks.now (length tasks.now) drivers.items) }
{
    let mut drivers = vec![in alloc; None; places]?;
    for (number, task) in tasks.iter().enumerate() {
        put_number(drivers.as_mut_slice(), task.target, number);
    }
    Ok(drivers)
}

/// The place has that number.
fn put_number(drivers: &mut [Option<usize>], place: usize, number: usize)
    ensures { drivers.new ≡ slice_set drivers.old place (Some number) }
{
    if place < drivers.len() {
        drivers[place] = Some(number);
    }
}

/// The numbers of the tasks that drive what the work reads.
pub fn work_drivers(
    alloc: Global,
    drivers: &[Option<usize>],
    work: &Work,
) -> Result<Seq<usize>, MemoryOut>
    ensures { IfOk result (λ found. found ≡ drivers_of drivers.now (work_places work.now)) }
{
    let mut found = Vec::new(alloc);
    match work {
        Work::Show(a)
        | Work::Unary(_, _, a)
        | Work::Word {
            base: _,
            depth: _,
            index: a,
        } => put_drivers(&mut found, drivers, a)?,
        Work::Binary(_, _, a, b) | Work::Signed(_, _, a, b) | Work::SignedShift(_, _, a, b) => {
            put_drivers(&mut found, drivers, a)?;
            put_drivers(&mut found, drivers, b)?;
        }
        Work::Choose(condition, a, b) => {
            put_drivers(&mut found, drivers, condition)?;
            put_drivers(&mut found, drivers, a)?;
            put_drivers(&mut found, drivers, b)?;
        }
        Work::Reset {
            reset,
            value: _,
            word: _,
        } => put_driver(&mut found, drivers, *reset)?,
    }
    Ok(Seq::from_vec(found))
}

/// Appends the numbers of the tasks that drive what the operand reads.
fn put_drivers(
    out: &mut Vec<usize>,
    drivers: &[Option<usize>],
    operand: &Operand,
) -> Result<(), MemoryOut>
    ensures { OnOk result (out.new.items ≡ out.old.items ++ drivers_of drivers.now (operand_places operand.now)) }
{
    match operand {
        Operand::Net(place) => put_driver(out, drivers, *place),
        Operand::Constant(_) => Ok(()),
        Operand::Pieces(pieces) => put_piece_drivers(out, drivers, pieces.as_slice()),
    }
}

fn put_piece_drivers(
    out: &mut Vec<usize>,
    drivers: &[Option<usize>],
    pieces: &[Piece],
) -> Result<(), MemoryOut>
    ensures { OnOk result (out.new.items ≡ out.old.items ++ drivers_of drivers.now (flat_map piece_places pieces.now)) }
{
    for piece in pieces {
        put_piece_driver(out, drivers, *piece)?;
    }
    Ok(())
}

fn put_piece_driver(
    out: &mut Vec<usize>,
    drivers: &[Option<usize>],
    piece: Piece,
) -> Result<(), MemoryOut>
    ensures { OnOk result (out.new.items ≡ out.old.items ++ drivers_of drivers.now (piece_places piece)) }
{
    match piece {
        Piece::Part {
            net,
            low: _,
            width: _,
        } => put_driver(out, drivers, net),
        Piece::Number {
            number: _,
            width: _,
        } => Ok(()),
    }
}

/// Appends the number of the task that drives the place, if one does.
fn put_driver(
    out: &mut Vec<usize>,
    drivers: &[Option<usize>],
    place: usize,
) -> Result<(), MemoryOut>
    ensures { OnOk result (out.new.items ≡ out.old.items ++ drivers_of drivers.now (place ∷ [])) }
{
    if let Some(number) = driver(drivers, place) {
        out.push(number)?;
    }
    Ok(())
}

fn driver(drivers: &[Option<usize>], place: usize) -> Option<usize>
    ensures { result ≡ driver_at drivers.now place }
{
    if place < drivers.len() {
        drivers[place]
    } else {
        None
    }
}

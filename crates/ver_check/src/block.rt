//! Blocks (IEEE 1364-2005, 9.2.2, 9.4, 9.7.2, 9.8.1).

ghost use Rattle.std.specs.Prelude.{◌≡◌, ◌≤◌, List, None, Some, IfOk, drop};
ghost use Rattle.ver_ast.specs.Grammar.{atom_tokens, write_tokens};
ghost use Rattle.ver_check.specs.Scopes.{bits_of, register_bits, word_bits};
ghost use Rattle.ver_places.specs.Places.{behind as places_behind};
ghost use Rattle.ver_check.specs.OperandFaults.{is_constant_fit, own_faults};
ghost use Rattle.ver_ast.specs.AtomForms.{constant_number};
ghost use Rattle.ver_check.specs.ItemFaults as spec;
ghost use Rattle.ver_check.specs.ItemFaults.{Before, Driver, driven_faults, driver_of};
ghost use Rattle.ver_check.specs.working.Findings.{Finds};
ghost use Rattle.ver_check.specs.working.Known.{Drives, driver_in};
ghost use Rattle.ver_check.specs.working.Blocks.{HasScope};

use crate::drivers::Drivers;
use crate::findings::{refuse, twice, undeclared};
use crate::operand::{WIDE, is_fit, own, unequal};
use crate::scope::Scope;
use crate::side::{array_bits, clock, misplaced, operand};
use fir_base::{Name, Refused};
use std::alloc::Global;
use ver_ast::{Always, Constant, Edge, Resetting, VPlace, Write, Writing};
use ver_fault::VerFault;
use ver_places::{behind, place_at};

/// The names that are declared and those that blocks write, as far as a block is judged beside them.
#[derive(Clone, Copy)]
pub struct Beside<'s> {
    pub alloc: Global,
    pub scope: &'s Scope,
    pub written: &'s Drivers,
}

/// The block of a register, which has the first of these places.
pub fn plain_block(
    beside: Beside<'_>,
    places: &[VPlace],
    block: &Always,
) -> Result<(), Refused<VerFault>>
    ensures { (before : Before) → HasScope beside.entry before → Finds result (spec.always_faults before block.now places.now) }
{
    let Beside { alloc, scope, .. } = beside;
    clock(alloc, scope, place_at(places, 2), &block.clock)?;
    let width = register(beside, place_at(places, 3), &block.target)?;
    operand(alloc, scope, behind(places, 4), Some(width), &block.source)?;
    Ok(())
}

/// The block of a register with an asynchronous reset.
pub fn resetting_block(
    beside: Beside<'_>,
    places: &[VPlace],
    block: &Resetting,
) -> Result<(), Refused<VerFault>>
    ensures { (before : Before) → HasScope beside.entry before → Finds result (spec.resetting_faults before block.now places.now) }
{
    match &block.edge {
        None => {
            tested(beside, behind(places, 2), block)?;
            Ok(())
        }
        Some(edge) => clocked(beside, places, block, edge),
    }
}

/// Such a block with a clock.
fn clocked(
    beside: Beside<'_>,
    places: &[VPlace],
    block: &Resetting,
    edge: &Edge,
) -> Result<(), Refused<VerFault>>
    ensures { (before : Before) → HasScope beside.entry before → Finds result (spec.edge_faults before block.now edge.now places.now) }
{
    let Beside { alloc, scope, .. } = beside;
    clock(alloc, scope, place_at(places, 2), &edge.clock)?;
    let width = tested(beside, behind(places, 5), block)?;
    again(beside, place_at(places, 11), &block.target, &edge.target)?;
    operand(alloc, scope, behind(places, 12), Some(width), &edge.source)?;
    Ok(())
}

/// The reset, which has the first of these places, the reset again, the register and the constant; the register's width.
fn tested(
    beside: Beside<'_>,
    places: &[VPlace],
    block: &Resetting,
) -> Result<u32, Refused<VerFault>>
    ensures found { (before : Before) → HasScope beside.entry before → Finds result (spec.tested_faults before block.now places.now) }
    ensures bits { IfOk result (λ w. (before : Before) → HasScope beside.entry before → bits_of register_bits before.scope block.now.target ≡ Some w) }
    ensures narrow { IfOk result (λ w. (before : Before) → HasScope beside.entry before → w ≤ 128) }
{
    reset(beside, place_at(places, 0), &block.reset)?;
    again(beside, place_at(places, 2), &block.reset, &block.tested)?;
    let width = register(beside, place_at(places, 3), &block.target)?;
    fitting(width, block.value, place_at(places, 4))?;
    Ok(width)
}

/// The constant of a register of that width.
fn fitting(width: u32, constant: Constant, place: VPlace) -> Result<(), Refused<VerFault>>
    ensures { width ≤ 128 → Finds result (own_faults (Some width) (Some constant.width) (is_constant_fit constant.width (constant_number constant)) place) }
{
    let bits = Some(constant.width.min(WIDE));
    refuse(own(Some(width), bits, is_fit(constant), place))
}

/// A reset is a net of one bit.
fn reset(beside: Beside<'_>, place: VPlace, name: &Name) -> Result<(), Refused<VerFault>>
    ensures { (before : Before) → HasScope beside.entry before → Finds result (spec.reset_faults before name.now place) }
{
    match beside.scope.find(name) {
        None => Err(Refused::Fault(undeclared(beside.alloc, place, name)?)),
        Some(entry) => match entry.kind.bits() {
            Some(width) => refuse(unequal(Some(1), Some(width.min(WIDE)), place)),
            None => Err(Refused::Fault(VerFault::Kind { place })),
        },
    }
}

/// The first name stands there again.
fn again(
    beside: Beside<'_>,
    place: VPlace,
    first: &Name,
    name: &Name,
) -> Result<(), Refused<VerFault>>
    ensures { (before : Before) → HasScope beside.entry before → Finds result (spec.again_faults before first.now name.now place) }
{
    if first.as_bytes() == name.as_bytes() {
        Ok(())
    } else {
        misplaced(beside.alloc, beside.scope, place, name)
    }
}

/// The width of the register of that name, which no other block writes.
fn register(beside: Beside<'_>, place: VPlace, name: &Name) -> Result<u32, Refused<VerFault>>
    ensures found { (before : Before) → HasScope beside.entry before → Finds result (spec.register_faults before name.now place) }
    ensures bits { IfOk result (λ w. (before : Before) → HasScope beside.entry before → bits_of register_bits before.scope name.now ≡ Some w) }
    ensures narrow { IfOk result (λ w. (before : Before) → HasScope beside.entry before → w ≤ 128) }
{
    match beside.scope.find(name) {
        None => Err(Refused::Fault(undeclared(beside.alloc, place, name)?)),
        Some(entry) => match entry.kind.register_bits() {
            Some(width) => {
                undriven(beside.alloc, beside.written, place, name)?;
                Ok(width)
            }
            None => Err(Refused::Fault(VerFault::Kind { place })),
        },
    }
}

/// The name has no driver yet.
pub fn undriven(
    alloc: Global,
    drivers: &Drivers,
    place: VPlace,
    name: &Name,
) -> Result<(), Refused<VerFault>>
    ensures found { (ds : List Driver) → Drives drivers.now ds → Finds result (driven_faults place name.now (driver_of ds name.now)) }
    ensures free { IfOk result (λ x. driver_in drivers.now name.now ≡ None) }
{
    match drivers.find(name) {
        None => Ok(()),
        Some(driver) => Err(Refused::Fault(twice(alloc, place, name, driver)?)),
    }
}

/// The writes of an array.
pub fn writing_block(
    beside: Beside<'_>,
    places: &[VPlace],
    block: &Writing,
) -> Result<(), Refused<VerFault>>
    ensures { (before : Before) → HasScope beside.entry before → Finds result (spec.writing_faults before block.now places.now) }
{
    clock(
        beside.alloc,
        beside.scope,
        place_at(places, 2),
        &block.clock,
    )?;
    writes_of(beside, behind(places, 4), block.writes.as_slice())
}

fn writes_of(
    beside: Beside<'_>,
    places: &[VPlace],
    writes: &[Write],
) -> Result<(), Refused<VerFault>>
    ensures { (before : Before) → HasScope beside.entry before → Finds result (spec.writes_faults before writes.now places.now) }
{
    match writes {
        [] => Ok(()),
        [first, more @ ..] => {
            let (next, width) = first_write(beside, places, first)?;
            more_writes(beside, next, &first.array, width, more)
        }
    }
}

/// The first write of a block, to an array that no other block writes; the places behind it, and the width of the
/// array's words.
fn first_write<'a>(
    beside: Beside<'_>,
    places: &'a [VPlace],
    write: &Write,
) -> Result<(&'a [VPlace], u32), Refused<VerFault>>
    ensures found { (before : Before) → HasScope beside.entry before → Finds result (spec.first_write_faults before write.now places.now) }
    ensures next { IfOk result (λ r. (before : Before) → HasScope beside.entry before → r.0.now ≡ places_behind (write_tokens write.now) places.now) }
    ensures bits { IfOk result (λ r. (before : Before) → HasScope beside.entry before → bits_of word_bits before.scope write.now.array ≡ Some r.1) }
    ensures narrow { IfOk result (λ r. (before : Before) → HasScope beside.entry before → r.1 ≤ 128) }
{
    let Beside {
        alloc,
        scope,
        written,
    } = beside;
    let condition = operand(alloc, scope, behind(places, 1), Some(1), &write.condition)?;
    let place = place_at(condition.next, 0);
    let width = array_bits(alloc, scope, place, &write.array)?;
    undriven(alloc, written, place, &write.array)?;
    let next = written_word(beside, condition.next, width, write)?;
    Ok((next, width))
}

/// The other writes of a block, to the same array, whose words have that width.
fn more_writes(
    beside: Beside<'_>,
    places: &[VPlace],
    array: &Name,
    width: u32,
    writes: &[Write],
) -> Result<(), Refused<VerFault>>
    ensures { (before : Before) → HasScope beside.entry before → bits_of word_bits before.scope array.now ≡ Some width → width ≤ 128
        → Finds result (spec.more_writes_faults before array.now writes.now places.now) }
{
    let mut next = places;
    for write in writes {
        next = next_write(beside, next, array, width, write)?;
    }
    Ok(())
}

fn next_write<'a>(
    beside: Beside<'_>,
    places: &'a [VPlace],
    array: &Name,
    width: u32,
    write: &Write,
) -> Result<&'a [VPlace], Refused<VerFault>>
    ensures found { (before : Before) → HasScope beside.entry before → bits_of word_bits before.scope array.now ≡ Some width → width ≤ 128
        → Finds result (spec.next_write_faults before array.now write.now places.now) }
    ensures next { IfOk result (λ next. (before : Before) → HasScope beside.entry before → bits_of word_bits before.scope array.now ≡ Some width → width ≤ 128
        → next.now ≡ places_behind (write_tokens write.now) places.now) }
{
    let Beside { alloc, scope, .. } = beside;
    let condition = operand(alloc, scope, behind(places, 1), Some(1), &write.condition)?;
    again(beside, place_at(condition.next, 0), array, &write.array)?;
    let next = written_word(beside, condition.next, width, write)?;
    Ok(next)
}

/// The index and the word of a write of an array whose words have that width, from its array's place on; the places
/// behind them.
fn written_word<'a>(
    beside: Beside<'_>,
    places: &'a [VPlace],
    width: u32,
    write: &Write,
) -> Result<&'a [VPlace], Refused<VerFault>>
    ensures found { (before : Before) → HasScope beside.entry before → bits_of word_bits before.scope write.now.array ≡ Some width → width ≤ 128
        → Finds result (spec.written_faults before write.now places.now) }
    ensures next { IfOk result (λ next. (before : Before) → HasScope beside.entry before → bits_of word_bits before.scope write.now.array ≡ Some width → width ≤ 128
        → next.now ≡ places_behind (atom_tokens write.now.source) (places_behind (atom_tokens write.now.index) (drop 2 places.now))) }
{
    let Beside { alloc, scope, .. } = beside;
    let index = operand(alloc, scope, behind(places, 2), None, &write.index)?;
    let source = operand(alloc, scope, index.next, Some(width), &write.source)?;
    Ok(source.next)
}

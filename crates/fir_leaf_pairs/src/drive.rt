//! Statements that drive one leaf each: those of the pairs of a connect, and those of `is invalid` (FIRRTL
//! spec, "Connects", "Partial Connects", "Invalidates").

ghost use Rattle.std.specs.Prelude.{◌≡◌, OnOk};
ghost use Rattle.fir_type_table.specs.working.Tables.{types_of};
ghost use Rattle.fir_leaf_pairs.specs.working.Drives.{Drives, DrivesBack, DrivesPair, DrivesPairs, DrivesZero, DrivesZeros, sinks_in};

use crate::pairs::LeafPair;
use crate::target::Target;
use fir_ast::Place;
use fir_base::MemoryOut;
use fir_leaf::{Drive, LeafStmt};
use fir_type_table::TypeTable;
use fir_types::found::leaves;

/// Drives the leaf of each pair that is to be driven, in their order, from the node of the other. A node of
/// each leaf of the right side is in `gives`; one of each leaf of the left side is in `gives_back`, which
/// may be empty where no pair is flipped.
pub fn drive_pairs(
    out: &mut Vec<LeafStmt>,
    place: Place,
    left: Target,
    right: Option<Target>,
    gives: &[usize],
    gives_back: &[usize],
    pairs: &[LeafPair],
) -> Result<(), MemoryOut>
    ensures { OnOk result (DrivesPairs out.old.items out.new.items place left right gives.now gives_back.now pairs.now) }
{
    for pair in pairs {
        drive_pair(out, place, left, right, gives, gives_back, *pair)?;
    }
    Ok(())
}

/// One pair.
fn drive_pair(
    out: &mut Vec<LeafStmt>,
    place: Place,
    left: Target,
    right: Option<Target>,
    gives: &[usize],
    gives_back: &[usize],
    pair: LeafPair,
) -> Result<(), MemoryOut>
    ensures { OnOk result (DrivesPair out.old.items out.new.items place left right gives.now gives_back.now pair) }
{
    if pair.flip {
        return Ok(drive_back(out, place, right, gives_back, pair)?);
    }
    let Some(given) = gives.get(pair.right as usize) else {
        return Ok(());
    };
    Ok(drive(out, place, left, pair.left, *given)?)
}

/// One that is flipped.
fn drive_back(
    out: &mut Vec<LeafStmt>,
    place: Place,
    right: Option<Target>,
    gives_back: &[usize],
    pair: LeafPair,
) -> Result<(), MemoryOut>
    ensures { OnOk result (DrivesBack out.old.items out.new.items place right gives_back.now pair) }
{
    let Some(right) = right else {
        return Ok(());
    };
    let Some(given) = gives_back.get(pair.left as usize) else {
        return Ok(());
    };
    Ok(drive(out, place, right, pair.right, *given)?)
}

/// Drives the leaf of that number of a target from a node; behind an index into a vector without elements
/// there is none.
fn drive(
    out: &mut Vec<LeafStmt>,
    place: Place,
    target: Target,
    leaf: u64,
    given: usize,
) -> Result<(), MemoryOut>
    ensures { OnOk result (Drives out.old.items out.new.items place target leaf given) }
{
    let Some(base) = target.base else {
        return Ok(());
    };
    out.push(LeafStmt::Drive(Drive {
        place,
        leaf: base.saturating_add(leaf as usize),
        picks: target.picks,
        given,
    }))?;
    Ok(())
}

/// Drives each leaf of a target that may be driven, by the table of all leaves, from a node that stands for
/// zeros.
pub fn drive_zeros(
    out: &mut Vec<LeafStmt>,
    place: Place,
    table: &TypeTable,
    target: Target,
    zeros: usize,
    sinks: &[bool],
) -> Result<(), MemoryOut>
    ensures { OnOk result (DrivesZeros (types_of table.now) out.old.items out.new.items place target zeros sinks.now) }
{
    let Some(_) = target.base else {
        return Ok(());
    };
    for leaf in 0..leaves(table, target.found) {
        drive_zero(out, place, target, leaf, zeros, sinks)?;
    }
    Ok(())
}

/// One leaf.
fn drive_zero(
    out: &mut Vec<LeafStmt>,
    place: Place,
    target: Target,
    leaf: u64,
    zeros: usize,
    sinks: &[bool],
) -> Result<(), MemoryOut>
    ensures { OnOk result (DrivesZero out.old.items out.new.items place target leaf zeros sinks.now) }
{
    let Some(base) = target.base else {
        return Ok(());
    };
    if is_sink(sinks, base.saturating_add(leaf as usize)) {
        return Ok(drive(out, place, target, leaf, zeros)?);
    }
    Ok(())
}

/// Whether the leaf of that number may be driven.
fn is_sink(sinks: &[bool], leaf: usize) -> bool
    ensures { result ≡ sinks_in sinks.now leaf }
{
    leaf < sinks.len() && sinks[leaf]
}

//! Connects, partial connects and `is invalid` (FIRRTL spec, "Connects", "Partial Connects", "Invalidates").

ghost use Rattle.std.specs.Prelude.{◌≡◌, IfOk, OnOk, map};
ghost use Rattle.fir_ast.specs.working.Views.{expr_of, sink_of};
ghost use Rattle.fir_meaning.specs.working.LeafPairs.{leaf_pairs, partial_leaf_pairs};
ghost use Rattle.fir_meaning.specs.ConnectPairs.{pairs, partial_pairs};
ghost use Rattle.fir_meaning.specs.Equivalence.{is_connectable, is_partly_connectable};
ghost use Rattle.fir_meaning.specs.working.WellTyped.{ConnectIsLegal};
ghost use Rattle.fir_type_table.specs.working.Tables.{types_of};
ghost use Rattle.fir_leaf_pairs.specs.working.Drives.{is_any_flipped};
ghost use Rattle.fir_leaf_pairs.specs.working.Pairing.{pair_seen};
ghost use Rattle.fir_ground.specs.working.Connects.{Connects, GivesBackWhere, Invalidates, MayDriveSides};

use crate::expressions::in_reference;
use crate::frame::Frame;
use crate::ground::Ground;
use crate::reads::read_all;
use crate::sides::{Sides, in_sides};
use crate::walk::Walk;
use fir_ast::{Expr, Place, Reference};
use fir_base::MemoryOut;
use fir_leaf::{LeafStmt, Node, add};
use fir_leaf_pairs::{LeafPair, Target, drive_pairs, drive_zeros, leaf_pairs, partial_leaf_pairs};
use fir_type_table::TypeTable;
use std::alloc::Global;

/// A connect.
pub fn in_connect<'a>(
    alloc: Global,
    ground: &Ground<'a>,
    walk: &mut Walk<'a>,
    out: &mut Vec<LeafStmt>,
    place: Place,
    sink: &'a Reference,
    source: &'a Expr,
) -> Result<(), MemoryOut>
    ensures { Connects leaf_pairs (ConnectIsLegal is_connectable pairs) ground.now place (sink_of sink.now) (expr_of source.now) walk.old walk.new out.old.items out.new.items result }
{
    let sides = in_sides(alloc, ground, walk, sink, source)?;
    let pairs = leaf_pairs(alloc, ground.table, sides.left.found, sides.found)?;
    drive_sides(
        alloc,
        ground.table,
        &mut walk.nodes,
        out,
        place,
        &sides,
        &pairs,
    )
}

/// A partial connect.
pub fn in_partial_connect<'a>(
    alloc: Global,
    ground: &Ground<'a>,
    walk: &mut Walk<'a>,
    out: &mut Vec<LeafStmt>,
    place: Place,
    sink: &'a Reference,
    source: &'a Expr,
) -> Result<(), MemoryOut>
    ensures { Connects partial_leaf_pairs (ConnectIsLegal is_partly_connectable partial_pairs) ground.now place (sink_of sink.now) (expr_of source.now) walk.old walk.new out.old.items out.new.items result }
{
    let sides = in_sides(alloc, ground, walk, sink, source)?;
    let pairs = partial_leaf_pairs(alloc, ground.table, sides.left.found, sides.found)?;
    drive_sides(
        alloc,
        ground.table,
        &mut walk.nodes,
        out,
        place,
        &sides,
        &pairs,
    )
}

/// Drives these pairs of both sides.
fn drive_sides(
    alloc: Global,
    table: &TypeTable,
    nodes: &mut Vec<Node>,
    out: &mut Vec<LeafStmt>,
    place: Place,
    sides: &Sides,
    pairs: &[LeafPair],
) -> Result<(), MemoryOut>
    ensures { OnOk result (MayDriveSides (types_of table.now) nodes.old.items nodes.new.items out.old.items out.new.items place sides.now pairs.now) }
{
    let backs = given_back(alloc, table, nodes, sides.left, pairs)?;
    drive_pairs(
        out,
        place,
        sides.left,
        sides.source.target,
        &sides.source.ids,
        &backs,
        pairs,
    )?;
    Ok(())
}

/// A node for each leaf of the left side, where a pair is flipped.
fn given_back(
    alloc: Global,
    table: &TypeTable,
    nodes: &mut Vec<Node>,
    left: Target,
    pairs: &[LeafPair],
) -> Result<Vec<usize>, MemoryOut>
    ensures { IfOk result (λ ids. GivesBackWhere (types_of table.now) nodes.old.items nodes.new.items left pairs.now ids.items) }
{
    if is_any_flipped(pairs) {
        return Ok(read_all(alloc, table, nodes, left)?);
    }
    Ok(Vec::new(alloc))
}

/// Whether the right leaf of some pair is driven.
fn is_any_flipped(pairs: &[LeafPair]) -> bool
    ensures { result ≡ is_any_flipped (map pair_seen pairs.now) }
{
    for pair in pairs {
        if pair.flip {
            return true;
        }
    }
    false
}

/// An invalid.
pub fn in_invalid<'a>(
    alloc: Global,
    frame: &Frame<'a>,
    walk: &mut Walk<'a>,
    out: &mut Vec<LeafStmt>,
    place: Place,
    sink: &'a Reference,
) -> Result<(), MemoryOut>
    ensures { Invalidates frame.now.ground frame.now.sinks.now place (sink_of sink.now) walk.old walk.new out.old.items out.new.items result }
{
    let target = in_reference(sink, alloc, &frame.ground, walk)?;
    let zeros = add(&mut walk.nodes, Node::Zeros)?;
    drive_zeros(out, place, frame.ground.table, target, zeros, frame.sinks)?;
    Ok(())
}

//! The leaves that are covered: each some statement reaches under every choice (FIRRTL spec, "Initialization of
//! Components"). One walk of the statements finds all. What a when covers is what both its blocks cover, so each
//! block lists what it covers, and a leaf goes on to the list outside once, however often it is driven inside; so
//! the work does not grow with the nesting.

ghost use Rattle.std.specs.Prelude.{◌≡◌, ℕ, ◌||◌, List, IfOk, OnOk};
ghost use Rattle.fir_meaning.specs.working.TermReads.{is_among};
ghost use Rattle.fir_leaf.specs.declared.statement.LeafStmt.TheVariants as code;
ghost use Rattle.fir_leaf.specs.working.NodeBlocks.{block_in, statement_in};
ghost use Rattle.fir_driven.specs.working.Covering.{AreCovered};
ghost use Rattle.fir_driven.specs.working.CoverWalks.{Covers, IsReady, Joins, MovesMarked, is_covered, is_covered_in};

use crate::flags::{flag_inner, is_flagged, set_flag, set_flags};
use crate::reached::is_picked;
use fir_base::MemoryOut;
use fir_leaf::{Drive, LeafStmt, LeafWhen, Node};
use std::alloc::Global;

/// A flag for each leaf: whether it is covered.
#[derive(Drop)]
struct Covering {
    covered: Vec<bool>,
    /// What the first block of a when covers, while its second is looked through.
    marks: Vec<bool>,
}

/// Which leaves are covered, by the number of whens round each one's declaration.
pub fn covered_leaves(
    alloc: Global,
    depths: &[usize],
    nodes: &[Node],
    body: &[LeafStmt],
) -> Result<Vec<bool>, MemoryOut>
    ensures { IfOk result (λ flags. AreCovered depths.now (block_in nodes.now body.now) flags.items) }
{
    let covered = vec![in alloc; false; depths.len()]?;
    let marks = vec![in alloc; false; depths.len()]?;
    let mut covering = Covering { covered, marks };
    let mut found = Vec::new(alloc);
    cover_block(body, alloc, depths, nodes, 0, &mut covering, &mut found)?;
    let Covering {
        mut covered,
        marks: _marks,
    } = covering;
    set_flags(&mut covered, &found, true);
    Ok(covered)
}

/// Lists the leaves that a block within so many whens covers; those that are declared further in are flagged.
#[cycle(cover)]
fn cover_block(
    body: &[LeafStmt],
    alloc: Global,
    depths: &[usize],
    nodes: &[Node],
    depth: usize,
    covering: &mut Covering,
    found: &mut Vec<usize>,
) -> Result<(), MemoryOut>
    ensures { OnOk result (IsReady depths.now covering.old → Covers depths.now depth (is_covered_in depths.now (block_in nodes.now body.now) depth) covering.old covering.new found.old.items found.new.items) }
{
    for statement in body {
        cover(statement, alloc, depths, nodes, depth, covering, found)?;
    }
    Ok(())
}

/// Lists what a statement covers, as of a block.
#[cycle(cover)]
fn cover(
    statement: &LeafStmt,
    alloc: Global,
    depths: &[usize],
    nodes: &[Node],
    depth: usize,
    covering: &mut Covering,
    found: &mut Vec<usize>,
) -> Result<(), MemoryOut>
    ensures { OnOk result (IsReady depths.now covering.old → Covers depths.now depth (is_covered depths.now (statement_in nodes.now statement.now) depth) covering.old covering.new found.old.items found.new.items) }
{
    match statement {
        LeafStmt::Drive(drive) => cover_drive(drive, nodes, found),
        LeafStmt::When(when) => cover_when(when, alloc, depths, nodes, depth, covering, found),
        LeafStmt::Instance(_) => Ok(()),
    }
}

/// Lists the leaf that the statement drives, where no index picks it.
fn cover_drive(drive: &Drive, nodes: &[Node], found: &mut Vec<usize>) -> Result<(), MemoryOut>
    ensures { OnOk result ((depths : List ℕ) (k x : ℕ) → is_among found.new.items x ≡ (is_among found.old.items x || is_covered depths (statement_in nodes.now (code.Drive drive.now)) k x)) }
{
    if is_picked(nodes, drive.picks) {
        return Ok(());
    }
    found.push(drive.leaf)?;
    Ok(())
}

/// Lists what both blocks of a when cover.
#[cycle(cover)]
fn cover_when(
    when: &LeafWhen,
    alloc: Global,
    depths: &[usize],
    nodes: &[Node],
    depth: usize,
    covering: &mut Covering,
    found: &mut Vec<usize>,
) -> Result<(), MemoryOut>
    ensures { OnOk result (IsReady depths.now covering.old → Covers depths.now depth (is_covered depths.now (statement_in nodes.now (code.When when.now)) depth) covering.old covering.new found.old.items found.new.items) }
{
    let inner = depth.checked_add(1).ok_or(MemoryOut)?;
    let mut first = Vec::new(alloc);
    cover_block(
        &when.then_block,
        alloc,
        depths,
        nodes,
        inner,
        covering,
        &mut first,
    )?;
    let mut second = Vec::new(alloc);
    cover_block(
        &when.else_block,
        alloc,
        depths,
        nodes,
        inner,
        covering,
        &mut second,
    )?;
    join(depths, depth, &first, &second, covering, found)
}

/// Lists the leaves that both lists have, each once; those of either that are declared further in are flagged.
fn join(
    depths: &[usize],
    depth: usize,
    first: &[usize],
    second: &[usize],
    covering: &mut Covering,
    found: &mut Vec<usize>,
) -> Result<(), MemoryOut>
    ensures { OnOk result (IsReady depths.now covering.old → Joins depths.now depth first.now second.now covering.old covering.new found.old.items found.new.items) }
{
    flag_inner(&mut covering.covered, first, depths, depth);
    flag_inner(&mut covering.covered, second, depths, depth);
    set_flags(&mut covering.marks, first, true);
    move_marked(second, &mut covering.marks, found)?;
    set_flags(&mut covering.marks, first, false);
    Ok(())
}

/// Lists those of the leaves that are marked, and takes their marks away.
pub fn move_marked(
    leaves: &[usize],
    marks: &mut Vec<bool>,
    found: &mut Vec<usize>,
) -> Result<(), MemoryOut>
    ensures { OnOk result (MovesMarked leaves.now marks.old.items marks.new.items found.old.items found.new.items) }
{
    for leaf in leaves {
        if is_flagged(marks, *leaf) {
            set_flag(marks, *leaf, false);
            found.push(*leaf)?;
        }
    }
    Ok(())
}

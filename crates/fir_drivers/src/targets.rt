//! The leaves that each when chooses for: those that are declared outside it and that a statement inside drives. One
//! walk from the last statement to the first lists all, each list once.

ghost use Rattle.std.specs.Prelude.{◌≡◌, ◌||◌, [], IfOk, ℕ, map, OnOk};
ghost use Rattle.fir_leaf.specs.declared.statement.LeafStmt.TheVariants as code;
ghost use Rattle.fir_leaf.specs.working.NodeBlocks.{block_in, statement_in};
ghost use Rattle.fir_drivers.specs.working.TargetLists.{AreUnmarked, Collects, StacksBlock, StacksStatement, TakesOuter};
ghost use Rattle.fir_meaning.specs.working.TermReads.{is_among};
ghost use Rattle.fir_meaning.specs.working.UndrivenChoices.{drives, drives_any};

use fir_base::MemoryOut;
use fir_driven::{depth_of, list_drive, move_marked, set_flag};
use fir_leaf::{LeafStmt, LeafWhen, Node};
use std::alloc::Global;

/// The lists of all whens of a block, where those of the last statement come first, and in a when those of its second
/// block, those of its first, and then its own. So they are taken from the end in the order of a walk from the first
/// statement.
pub fn target_lists(
    alloc: Global,
    depths: &[usize],
    nodes: &[Node],
    body: &[LeafStmt],
) -> Result<Vec<Vec<usize>>, MemoryOut>
    ensures { IfOk result (λ lists. StacksBlock depths.now (block_in nodes.now body.now) 0 [] (map (λ v. v.items) lists.items)) }
{
    let mut marks = vec![in alloc; false; depths.len()]?;
    let mut lists = Vec::new(alloc);
    let mut driven = Vec::new(alloc);
    collect_block(
        body,
        alloc,
        depths,
        nodes,
        0,
        &mut marks,
        &mut lists,
        &mut driven,
    )?;
    Ok(lists)
}

/// Puts the lists of a block within so many whens behind others, and the leaves that it drives; of those that are
/// declared further in it may leave some out.
#[cycle(collect)]
fn collect_block(
    body: &[LeafStmt],
    alloc: Global,
    depths: &[usize],
    nodes: &[Node],
    depth: usize,
    marks: &mut Vec<bool>,
    lists: &mut Vec<Vec<usize>>,
    driven: &mut Vec<usize>,
) -> Result<(), MemoryOut>
    ensures { OnOk result (AreUnmarked depths.now marks.old.items → Collects depths.now depth (λ x. drives_any x (block_in nodes.now body.now)) (StacksBlock depths.now (block_in nodes.now body.now) depth) marks.new.items (map (λ v. v.items) lists.old.items) (map (λ v. v.items) lists.new.items) driven.old.items driven.new.items) }
{
    for index in (0..body.len()).rev() {
        let statement = &body[index];
        collect(statement, alloc, depths, nodes, depth, marks, lists, driven)?;
    }
    Ok(())
}

/// The same of a statement.
#[cycle(collect)]
fn collect(
    statement: &LeafStmt,
    alloc: Global,
    depths: &[usize],
    nodes: &[Node],
    depth: usize,
    marks: &mut Vec<bool>,
    lists: &mut Vec<Vec<usize>>,
    driven: &mut Vec<usize>,
) -> Result<(), MemoryOut>
    ensures { OnOk result (AreUnmarked depths.now marks.old.items → Collects depths.now depth (λ x. drives x (statement_in nodes.now statement.now)) (StacksStatement depths.now (statement_in nodes.now statement.now) depth) marks.new.items (map (λ v. v.items) lists.old.items) (map (λ v. v.items) lists.new.items) driven.old.items driven.new.items) }
{
    match statement {
        LeafStmt::Drive(drive) => list_drive(alloc, nodes, drive, driven),
        LeafStmt::When(when) => {
            collect_when(when, alloc, depths, nodes, depth, marks, lists, driven)
        }
        LeafStmt::Instance(_) => Ok(()),
    }
}

/// The lists of a when, and the leaves that it chooses for.
#[cycle(collect)]
fn collect_when(
    when: &LeafWhen,
    alloc: Global,
    depths: &[usize],
    nodes: &[Node],
    depth: usize,
    marks: &mut Vec<bool>,
    lists: &mut Vec<Vec<usize>>,
    driven: &mut Vec<usize>,
) -> Result<(), MemoryOut>
    ensures { OnOk result (AreUnmarked depths.now marks.old.items → Collects depths.now depth (λ x. drives x (statement_in nodes.now (code.When when.now))) (StacksStatement depths.now (statement_in nodes.now (code.When when.now)) depth) marks.new.items (map (λ v. v.items) lists.old.items) (map (λ v. v.items) lists.new.items) driven.old.items driven.new.items) }
{
    let inner = depth.checked_add(1).ok_or(MemoryOut)?;
    let mut inside = Vec::new(alloc);
    collect_block(
        &when.else_block,
        alloc,
        depths,
        nodes,
        inner,
        marks,
        lists,
        &mut inside,
    )?;
    collect_block(
        &when.then_block,
        alloc,
        depths,
        nodes,
        inner,
        marks,
        lists,
        &mut inside,
    )?;
    let targets = outer_once(alloc, depths, depth, &inside, marks)?;
    driven.extend_from_slice(&targets)?;
    lists.push(targets)?;
    Ok(())
}

/// Those of the leaves that are declared within no more than so many whens, each once.
fn outer_once(
    alloc: Global,
    depths: &[usize],
    depth: usize,
    leaves: &[usize],
    marks: &mut Vec<bool>,
) -> Result<Vec<usize>, MemoryOut>
    ensures { IfOk result (λ outer. AreUnmarked depths.now marks.old.items → TakesOuter depths.now depth leaves.now outer.items marks.new.items) }
{
    for leaf in leaves {
        if depth_of(depths, *leaf) <= depth {
            set_flag(marks, *leaf, true);
        }
    }
    let mut outer = Vec::new(alloc);
    move_marked(leaves, marks, &mut outer)?;
    Ok(outer)
}

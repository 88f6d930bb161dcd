//! The leaves that some statement may drive, under whatever choice (FIRRTL spec, "Connects").

ghost use Rattle.std.specs.Prelude.{◌≡◌, ◌||◌, ℕ, IfOk, OnOk};
ghost use Rattle.fir_meaning.specs.working.TermReads.{is_among};
ghost use Rattle.fir_meaning.specs.working.UndrivenChoices.{drives, drives_any};
ghost use Rattle.fir_leaf.specs.declared.statement.LeafStmt.TheVariants as code;
ghost use Rattle.fir_leaf.specs.working.NodeBlocks.{block_in, statement_in};
ghost use Rattle.fir_driven.specs.working.DrivenFlags.{AreDriven};

use crate::flags::set_flags;
use crate::reached::reached_leaves;
use fir_base::MemoryOut;
use fir_leaf::{Drive, LeafStmt, LeafWhen, Node};
use std::alloc::Global;

/// A flag for each of so many leaves: whether some statement of the block may drive it.
pub fn driven_leaves(
    alloc: Global,
    count: usize,
    nodes: &[Node],
    body: &[LeafStmt],
) -> Result<Vec<bool>, MemoryOut>
    ensures { IfOk result (λ flags. AreDriven count (block_in nodes.now body.now) flags.items) }
{
    let mut flags = vec![in alloc; false; count]?;
    let mut driven = Vec::new(alloc);
    list_block(body, alloc, nodes, &mut driven)?;
    set_flags(&mut flags, &driven, true);
    Ok(flags)
}

/// Lists the leaves that the statements of a block may drive behind others.
#[cycle(list)]
fn list_block(
    body: &[LeafStmt],
    alloc: Global,
    nodes: &[Node],
    driven: &mut Vec<usize>,
) -> Result<(), MemoryOut>
    ensures { OnOk result ((x : ℕ) → is_among driven.new.items x ≡ (is_among driven.old.items x || drives_any x (block_in nodes.now body.now))) }
{
    for statement in body {
        list(statement, alloc, nodes, driven)?;
    }
    Ok(())
}

/// The same of a statement.
#[cycle(list)]
fn list(
    statement: &LeafStmt,
    alloc: Global,
    nodes: &[Node],
    driven: &mut Vec<usize>,
) -> Result<(), MemoryOut>
    ensures { OnOk result ((x : ℕ) → is_among driven.new.items x ≡ (is_among driven.old.items x || drives x (statement_in nodes.now statement.now))) }
{
    match statement {
        LeafStmt::Drive(drive) => list_drive(alloc, nodes, drive, driven),
        LeafStmt::When(when) => list_when(when, alloc, nodes, driven),
        LeafStmt::Instance(_) => Ok(()),
    }
}

/// Those of both blocks of a when.
#[cycle(list)]
fn list_when(
    when: &LeafWhen,
    alloc: Global,
    nodes: &[Node],
    driven: &mut Vec<usize>,
) -> Result<(), MemoryOut>
    ensures { OnOk result ((x : ℕ) → is_among driven.new.items x ≡ (is_among driven.old.items x || drives x (statement_in nodes.now (code.When when.now)))) }
{
    list_block(&when.then_block, alloc, nodes, driven)?;
    list_block(&when.else_block, alloc, nodes, driven)
}

/// Lists the leaves that the statement may drive behind others.
pub fn list_drive(
    alloc: Global,
    nodes: &[Node],
    drive: &Drive,
    driven: &mut Vec<usize>,
) -> Result<(), MemoryOut>
    ensures { OnOk result ((x : ℕ) → is_among driven.new.items x ≡ (is_among driven.old.items x || drives x (statement_in nodes.now (code.Drive drive.now)))) }
{
    let leaves = reached_leaves(alloc, nodes, drive.leaf, drive.picks)?;
    driven.extend_from_slice(&leaves)?;
    Ok(())
}

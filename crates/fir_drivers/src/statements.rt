//! The walk over statements, which leaves each leaf the bound of what the statements so far give it.

ghost use Rattle.std.specs.Prelude.{OnOk, length, map};
ghost use Rattle.fir_leaf.specs.declared.statement.LeafStmt.TheVariants as code;
ghost use Rattle.fir_leaf.specs.working.NodeBlocks.{block_in, statement_in};
ghost use Rattle.fir_merge.specs.working.Entries.{BoundsBelow};
ghost use Rattle.fir_drivers.specs.working.Walks.{Goes, IsSetBelow, TakesList, WalksBlock, WalksStatement};

use crate::drives::drive_leaves;
use crate::setting::Setting;
use crate::slots::{merge, put_back, slots_of};
use fir_base::MemoryOut;
use fir_leaf::{LeafStmt, LeafWhen};
use fir_merge::{Bound, NetNodes, value_at};
use std::alloc::Global;

/// A block within so many whens. Of each when the leaves that it chooses for are taken from the end of the lists.
#[cycle(walk)]
pub fn walk_block(
    body: &[LeafStmt],
    alloc: Global,
    setting: &Setting,
    depth: usize,
    net: &mut NetNodes,
    slots: &mut Vec<Bound>,
    lists: &mut Vec<Vec<usize>>,
) -> Result<(), MemoryOut>
    requires setting { IsSetBelow (length net.old) setting.now }
    requires slots { BoundsBelow (length net.old) slots.old.items }
    ensures goes { OnOk result (Goes net.old net.new slots.old.items slots.new.items) }
    ensures walks { OnOk result (WalksBlock setting.now (block_in setting.now.nodes.now body.now) depth net.old net.new slots.old.items slots.new.items (map (λ v. v.items) lists.old.items) (map (λ v. v.items) lists.new.items)) }
{
    for statement in body {
        walk(statement, alloc, setting, depth, net, slots, lists)?;
    }
    Ok(())
}

/// The same of a statement.
#[cycle(walk)]
fn walk(
    statement: &LeafStmt,
    alloc: Global,
    setting: &Setting,
    depth: usize,
    net: &mut NetNodes,
    slots: &mut Vec<Bound>,
    lists: &mut Vec<Vec<usize>>,
) -> Result<(), MemoryOut>
    requires setting { IsSetBelow (length net.old) setting.now }
    requires slots { BoundsBelow (length net.old) slots.old.items }
    ensures goes { OnOk result (Goes net.old net.new slots.old.items slots.new.items) }
    ensures walks { OnOk result (WalksStatement setting.now (statement_in setting.now.nodes.now statement.now) depth net.old net.new slots.old.items slots.new.items (map (λ v. v.items) lists.old.items) (map (λ v. v.items) lists.new.items)) }
{
    match statement {
        LeafStmt::Drive(drive) => drive_leaves(alloc, setting, net, slots, drive),
        LeafStmt::When(when) => walk_when(when, alloc, setting, depth, net, slots, lists),
        LeafStmt::Instance(_) => Ok(()),
    }
}

/// A when: each leaf that it chooses for goes on with the choice between what its blocks leave. Leaves that are
/// declared inside go through both blocks.
#[cycle(walk)]
fn walk_when(
    when: &LeafWhen,
    alloc: Global,
    setting: &Setting,
    depth: usize,
    net: &mut NetNodes,
    slots: &mut Vec<Bound>,
    lists: &mut Vec<Vec<usize>>,
) -> Result<(), MemoryOut>
    requires setting { IsSetBelow (length net.old) setting.now }
    requires slots { BoundsBelow (length net.old) slots.old.items }
    ensures goes { OnOk result (Goes net.old net.new slots.old.items slots.new.items) }
    ensures walks { OnOk result (WalksStatement setting.now (statement_in setting.now.nodes.now (code.When when.now)) depth net.old net.new slots.old.items slots.new.items (map (λ v. v.items) lists.old.items) (map (λ v. v.items) lists.new.items)) }
{
    let inner = depth.checked_add(1).ok_or(MemoryOut)?;
    let targets = take_list(alloc, lists);
    let condition = value_at(
        setting.nodes,
        setting.bounds,
        setting.nothing,
        when.condition,
    );
    let before = slots_of(alloc, slots, &targets, setting.nothing)?;
    walk_block(&when.then_block, alloc, setting, inner, net, slots, lists)?;
    let first = slots_of(alloc, slots, &targets, setting.nothing)?;
    put_back(slots, &targets, &before);
    walk_block(&when.else_block, alloc, setting, inner, net, slots, lists)?;
    let second = slots_of(alloc, slots, &targets, setting.nothing)?;
    merge(net, slots, &condition, &targets, &first, &second)
}

/// Takes the last of the lists; without any there are no leaves.
fn take_list(alloc: Global, lists: &mut Vec<Vec<usize>>) -> Vec<usize>
    ensures { TakesList (map (λ v. v.items) lists.old.items) (map (λ v. v.items) lists.new.items) result.items }
{
    match lists.pop() {
        Some(list) => list,
        None => Vec::new(alloc),
    }
}

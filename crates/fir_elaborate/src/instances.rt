//! The instances of a module.

ghost use Rattle.std.specs.Prelude.{◌≡◌, ◌++◌, IfOk, List, OnOk, length, map};
ghost use Rattle.fir_leaf.specs.declared.node.Node.{Node};
ghost use Rattle.fir_leaf.specs.working.NodeBlocks.{block_in, statement_in};
ghost use Rattle.fir_elaborate.specs.working.OrderedModules.{instances_in, instances_of};
ghost use Rattle.fir_elaborate.specs.working.Walks.{AreHeld, held_seen};

use fir_base::MemoryOut;
use fir_leaf::{LeafInstance, LeafStmt};
use fir_leaf_circuit::LeafModule;
use std::alloc::Global;

/// The instances of each module, in the order of the text.
pub fn instances_of_all(
    alloc: Global,
    modules: &[LeafModule],
) -> Result<Vec<Vec<LeafInstance>>, MemoryOut>
    ensures held { IfOk result (λ held. AreHeld modules.now (map (λ is. is.items) held.items)) }
    ensures count { IfOk result (λ held. length held.items ≡ length modules.now) }
{
    let mut held = Vec::new(alloc);
    for module in modules {
        held.push(instances_of(alloc, &module.body)?)?;
    }
    Ok(held)
}

/// Those of a module with this body.
fn instances_of(alloc: Global, body: &[LeafStmt]) -> Result<Vec<LeafInstance>, MemoryOut>
    ensures { IfOk result (λ found. (nodes : List Node) → map held_seen found.items ≡ instances_of (block_in nodes body.now)) }
{
    let mut found = Vec::new(alloc);
    push_instances(body, &mut found)?;
    Ok(found)
}

/// Appends those of a block.
#[cycle(instances)]
fn push_instances(body: &[LeafStmt], found: &mut Vec<LeafInstance>) -> Result<(), MemoryOut>
    ensures { OnOk result ((nodes : List Node) → map held_seen found.new.items ≡ map held_seen found.old.items ++ instances_of (block_in nodes body.now)) }
{
    for statement in body {
        push_instances_of(statement, found)?;
    }
    Ok(())
}

/// Appends that of a statement, or those of its blocks.
#[cycle(instances)]
fn push_instances_of(statement: &LeafStmt, found: &mut Vec<LeafInstance>) -> Result<(), MemoryOut>
    ensures { OnOk result ((nodes : List Node) → map held_seen found.new.items ≡ map held_seen found.old.items ++ instances_in (statement_in nodes statement.now)) }
{
    match statement {
        LeafStmt::Drive(_) => Ok(()),
        LeafStmt::When(when) => {
            push_instances(&when.then_block, found)?;
            push_instances(&when.else_block, found)
        }
        LeafStmt::Instance(instance) => Ok(found.push(*instance)?),
    }
}

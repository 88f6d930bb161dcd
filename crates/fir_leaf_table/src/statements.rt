//! The leaves of what the statements of a module declare, in the order of the text (FIRRTL spec, "Wires",
//! "Registers", "Nodes", "Instances", "Memories").

ghost use Rattle.std.specs.Prelude.{map};
ghost use Rattle.fir_ast.specs.declared.place.Place.{Place};
ghost use Rattle.fir_ast.specs.Expressions.{Expression};
ghost use Rattle.fir_ast.specs.Statements as tree;
ghost use Rattle.fir_ast.specs.Types.{DataType};
ghost use Rattle.fir_ast.specs.working.Views.{block_of, named_of, stmt_of};
ghost use Rattle.fir_names.specs.working.Parts.{when_view};
ghost use Rattle.fir_leaf_table.specs.working.Walks.{PassesBlock, PassesStatement};

use crate::frame::Frame;
use crate::giver::Giver;
use crate::instances::in_instance;
use crate::memory_leaves::in_memory;
use crate::places::Places;
use crate::push::push_leaves;
use crate::registers::in_register;
use crate::walk::Walk;
use fir_ast::{Ident, Stmt, When};
use fir_base::MemoryOut;
use fir_ground::Driver;
use std::alloc::Global;

/// The leaves, arrays and memories of a block, inside so many whens, are put behind those that are there.
#[cycle(statements)]
pub fn in_block(
    body: &[Stmt],
    alloc: Global,
    frame: &Frame,
    depth: usize,
    walk: &mut Walk,
) -> Result<(), MemoryOut>
    ensures { PassesBlock frame.now (block_of (map stmt_of body.now)) depth walk.old walk.new result }
{
    for statement in body {
        in_statement(statement, alloc, frame, depth, walk)?;
    }
    Ok(())
}

#[cycle(statements)]
fn in_statement(
    statement: &Stmt,
    alloc: Global,
    frame: &Frame,
    depth: usize,
    walk: &mut Walk,
) -> Result<(), MemoryOut>
    ensures { PassesStatement frame.now (stmt_of statement.now) depth walk.old walk.new result }
{
    match statement {
        Stmt::Wire(_, ident, _, _) => in_wire(alloc, frame, depth, ident, walk),
        Stmt::Reg(_, register) => in_register(alloc, frame, depth, &register.ident, walk),
        Stmt::Node(_, ident, _) => in_node(alloc, frame, depth, ident, walk),
        Stmt::Inst(_, ident, _) => in_instance(alloc, frame, depth, ident, walk),
        Stmt::Mem(_, memory) => in_memory(alloc, frame, depth, memory, walk),
        Stmt::When(_, when) => in_when(when, alloc, frame, depth, walk),
        Stmt::Connect(_, _, _)
        | Stmt::PartialConnect(_, _, _)
        | Stmt::Invalid(_, _)
        | Stmt::Skip(_) => Ok(()),
    }
}

/// Both blocks, inside one when more.
#[cycle(statements)]
fn in_when(
    when: &When,
    alloc: Global,
    frame: &Frame,
    depth: usize,
    walk: &mut Walk,
) -> Result<(), MemoryOut>
    ensures { (place : Place) → PassesStatement frame.now (when_view when.now place) depth walk.old walk.new result }
{
    let inside = depth.checked_add(1).ok_or(MemoryOut)?;
    in_block(&when.then_block, alloc, frame, inside, walk)?;
    in_block(&when.else_block, alloc, frame, inside, walk)
}

/// A wire of that name.
fn in_wire(
    alloc: Global,
    frame: &Frame,
    depth: usize,
    ident: &Ident,
    walk: &mut Walk,
) -> Result<(), MemoryOut>
    ensures { (place begins : Place) (t : DataType) → PassesStatement frame.now (tree.wire place (named_of ident.now) begins t) depth walk.old walk.new result }
{
    walk.next_driver();
    push_leaves(
        alloc,
        frame,
        depth,
        &Places::Own(ident.place),
        &Giver::Wire,
        walk,
    )
}

/// A node of that name.
fn in_node(
    alloc: Global,
    frame: &Frame,
    depth: usize,
    ident: &Ident,
    walk: &mut Walk,
) -> Result<(), MemoryOut>
    ensures { (place : Place) (e : Expression) → PassesStatement frame.now (tree.node place (named_of ident.now) e) depth walk.old walk.new result }
{
    let Some(driver) = walk.next_driver() else {
        return Ok(());
    };
    let Driver::Node(ids) = driver else {
        return Ok(());
    };
    push_leaves(
        alloc,
        frame,
        depth,
        &Places::Own(ident.place),
        &Giver::Node(ids),
        walk,
    )
}

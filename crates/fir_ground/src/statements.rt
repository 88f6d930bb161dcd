//! The statements of a module over its leaves, in the order of the text (FIRRTL spec, "Statements",
//! "Conditionals", "Instances").

ghost use Rattle.std.specs.Prelude.{◌++◌, ℕ, List, map, option_map, IfOk, OnOk};
ghost use Rattle.fir_ast.specs.declared.place.Place.{Place};
ghost use Rattle.fir_ast.specs.Circuits.{ModuleTree};
ghost use Rattle.fir_ast.specs.Statements as tree;
ghost use Rattle.fir_ast.specs.Statements.{PlacedName};
ghost use Rattle.fir_ast.specs.Types.{DataType};
ghost use Rattle.fir_ast.specs.working.Views.{block_of, expr_of, named_of, reset_of, stmt_of};
ghost use Rattle.fir_ast.specs.working.TypeViews.{type_of};
ghost use Rattle.fir_leaf.specs.declared.node.Node.{Node};
ghost use Rattle.fir_leaf.specs.declared.statement.LeafStmt.{LeafStmt};
ghost use Rattle.fir_meaning.specs.working.LeafedBlocks.{instance_block};
ghost use Rattle.fir_leaf.specs.working.NodeBlocks.{Emitted};
ghost use Rattle.fir_meaning.specs.Components.{Declarations};
ghost use Rattle.fir_meaning.specs.ResetJoins.{numbered_module};
ghost use Rattle.fir_meaning.specs.TypedScopes.{TypedScope};
ghost use Rattle.fir_meaning.specs.TypeGroup.{scope_at};
ghost use Rattle.fir_meaning.specs.Visibility.{Before};
ghost use Rattle.fir_meaning.specs.working.WellTyped.{ResetIsLegal};
ghost use Rattle.fir_names.specs.working.Parts.{when_view};
ghost use Rattle.fir_types.specs.working.ModuleNotes.{reset_notes};
ghost use Rattle.fir_types.specs.working.Notes.{Note as Meant};
ghost use Rattle.fir_ground.specs.declared.walk.Walk.{Walk};
ghost use Rattle.fir_ground.specs.working.DeclarationDrivers.{Declares, ExpandsReset, reset_terms};
ghost use Rattle.fir_ground.specs.working.Grounds.{Enters};
ghost use Rattle.fir_ground.specs.working.Statements.{IsInstance, IsInstanceAt, PassesBlock, PassesStatement};

use crate::connects::{in_connect, in_invalid, in_partial_connect};
use crate::driver::{Driver, RegisterDriver, ResetDriver};
use crate::expressions::{in_expression, in_first};
use crate::frame::Frame;
use crate::ground::Ground;
use crate::notes::last_passed;
use crate::reset_kind::reset_kind;
use crate::walk::Walk;
use fir_ast::{Expr, Place, Register, RegisterReset, Stmt, When};
use fir_base::MemoryOut;
use fir_leaf::{LeafInstance, LeafStmt, LeafWhen};
use fir_names::Component;
use std::alloc::Global;

/// The statements of a block are put behind those that are there. Of the module so many are declared before
/// it.
#[cycle(statements)]
pub fn in_block<'a>(
    body: &'a [Stmt],
    alloc: Global,
    frame: &Frame<'a>,
    walk: &mut Walk<'a>,
    declared: &mut usize,
    out: &mut Vec<LeafStmt>,
) -> Result<(), MemoryOut>
    ensures { PassesBlock frame.now (block_of (map stmt_of body.now)) walk.old walk.new declared.old declared.new out.old.items out.new.items result }
{
    for statement in body {
        in_statement(statement, alloc, frame, walk, declared, out)?;
    }
    Ok(())
}

#[cycle(statements)]
fn in_statement<'a>(
    statement: &'a Stmt,
    alloc: Global,
    frame: &Frame<'a>,
    walk: &mut Walk<'a>,
    declared: &mut usize,
    out: &mut Vec<LeafStmt>,
) -> Result<(), MemoryOut>
    ensures { PassesStatement frame.now (stmt_of statement.now) walk.old walk.new declared.old declared.new out.old.items out.new.items result }
{
    match statement {
        Stmt::Wire(_, _, _, _) | Stmt::Mem(_, _) => declare(walk, declared, Driver::Others),
        Stmt::Reg(_, register) => in_register(alloc, frame, walk, declared, register),
        Stmt::Node(_, _, value) => in_node(alloc, frame, walk, declared, value),
        Stmt::Inst(_, _, _) => in_instance(frame, walk, declared, out),
        Stmt::When(place, when) => in_when(when, alloc, frame, walk, declared, *place, out),
        Stmt::Connect(place, sink, source) => {
            in_connect(alloc, &frame.ground, walk, out, *place, sink, source)
        }
        Stmt::PartialConnect(place, sink, source) => {
            in_partial_connect(alloc, &frame.ground, walk, out, *place, sink, source)
        }
        Stmt::Invalid(place, sink) => in_invalid(alloc, frame, walk, out, *place, sink),
        Stmt::Skip(_) => Ok(()),
    }
}

/// The condition, and then the blocks.
#[cycle(statements)]
fn in_when<'a>(
    when: &'a When,
    alloc: Global,
    frame: &Frame<'a>,
    walk: &mut Walk<'a>,
    declared: &mut usize,
    place: Place,
    out: &mut Vec<LeafStmt>,
) -> Result<(), MemoryOut>
    ensures { PassesStatement frame.now (when_view when.now place) walk.old walk.new declared.old declared.new out.old.items out.new.items result }
{
    let condition = in_first(&when.condition, alloc, &frame.ground, walk)?;
    let mut then_block = Vec::new(alloc);
    in_block(
        &when.then_block,
        alloc,
        frame,
        walk,
        declared,
        &mut then_block,
    )?;
    let mut else_block = Vec::new(alloc);
    in_block(
        &when.else_block,
        alloc,
        frame,
        walk,
        declared,
        &mut else_block,
    )?;
    out.push(LeafStmt::When(LeafWhen {
        place,
        condition,
        then_block,
        else_block,
    }))?;
    Ok(())
}

/// A declaration is passed, with what gives its leaves their values.
fn declare(walk: &mut Walk, declared: &mut usize, driver: Driver) -> Result<(), MemoryOut>
    ensures { OnOk result (Declares walk.old walk.new declared.old declared.new driver) }
{
    walk.drivers.push(driver)?;
    *declared = declared.checked_add(1).ok_or(MemoryOut)?;
    Ok(())
}

/// A register, with the nodes of its clock and its reset.
fn in_register<'a>(
    alloc: Global,
    frame: &Frame<'a>,
    walk: &mut Walk<'a>,
    declared: &mut usize,
    register: &'a Register,
) -> Result<(), MemoryOut>
    ensures { (place : Place) (out : List LeafStmt) → PassesStatement frame.now (tree.register place (named_of register.now.ident) register.now.type_place (type_of register.now.ty) (expr_of register.now.clock) (option_map reset_of register.now.reset)) walk.old walk.new declared.old declared.new out out result }
{
    let clock = in_first(&register.clock, alloc, &frame.ground, walk)?;
    let reset = in_reset(alloc, &frame.ground, walk, &register.reset)?;
    declare(
        walk,
        declared,
        Driver::Register(RegisterDriver { clock, reset }),
    )
}

/// The condition and the init of a reset, with what tells whether it is asynchronous.
fn in_reset<'a>(
    alloc: Global,
    ground: &Ground<'a>,
    walk: &mut Walk<'a>,
    reset: &'a Option<RegisterReset>,
) -> Result<Option<ResetDriver>, MemoryOut>
    ensures { (typed : TypedScope) (t : DataType) (rest : List Meant) → Enters ground.now typed (reset_notes typed (option_map reset_of reset.now) ++ rest) walk.old → ResetIsLegal typed t (option_map reset_of reset.now) → IfOk result (λ made. ExpandsReset ground.now rest walk.old walk.new made (option_map (reset_terms typed) (option_map reset_of reset.now))) }
{
    let Some(reset) = reset else {
        return Ok(None);
    };
    let notes = walk.notes;
    let condition = in_first(&reset.condition, alloc, ground, walk)?;
    let kind = reset_kind(ground.table, last_passed(notes, walk.notes));
    let init = in_expression(&reset.init, alloc, ground, walk)?;
    Ok(Some(ResetDriver {
        condition,
        kind,
        init,
    }))
}

/// A node, with those of its expression.
fn in_node<'a>(
    alloc: Global,
    frame: &Frame<'a>,
    walk: &mut Walk<'a>,
    declared: &mut usize,
    value: &'a Expr,
) -> Result<(), MemoryOut>
    ensures { (place : Place) (named : PlacedName) (out : List LeafStmt) → PassesStatement frame.now (tree.node place named (expr_of value.now)) walk.old walk.new declared.old declared.new out out result }
{
    let leaves = in_expression(value, alloc, &frame.ground, walk)?;
    declare(walk, declared, Driver::Node(leaves))
}

/// An instance.
fn in_instance(
    frame: &Frame,
    walk: &mut Walk,
    declared: &mut usize,
    out: &mut Vec<LeafStmt>,
) -> Result<(), MemoryOut>
    ensures { (place : Place) (named other : PlacedName) → PassesStatement frame.now (tree.instance place named other) walk.old walk.new declared.old declared.new out.old.items out.new.items result }
{
    put_instance(frame, *declared, out)?;
    declare(walk, declared, Driver::Others)
}

/// The statement of the instance before which so many are declared.
fn put_instance(frame: &Frame, position: usize, out: &mut Vec<LeafStmt>) -> Result<(), MemoryOut>
    ensures { OnOk result ((modules : List ModuleTree) (whole : Declarations) (before : Before) (named : PlacedName) (name : List ℕ) (nodes : List Node) → IsInstanceAt frame.now modules whole before named name position → Emitted nodes out.old.items out.new.items (instance_block (scope_at modules before) (numbered_module 0 modules name))) }
{
    let Some(instance) = instance_at(frame, position) else {
        return Ok(());
    };
    out.push(LeafStmt::Instance(instance))?;
    Ok(())
}

/// The instance before which so many are declared, with the number of its module.
fn instance_at(frame: &Frame, position: usize) -> Option<LeafInstance>
    ensures { (modules : List ModuleTree) (whole : Declarations) (before : Before) (named : PlacedName) (name : List ℕ) → IsInstanceAt frame.now modules whole before named name position → IsInstance (scope_at modules before) (numbered_module 0 modules name) result }
{
    let declaration = frame.names.at(position)?;
    let Component::Instance(module_number) = declaration.component else {
        return None;
    };
    let first = frame.ground.firsts.get(position)?;
    Some(LeafInstance {
        declaration: position,
        module_number,
        first: *first,
    })
}

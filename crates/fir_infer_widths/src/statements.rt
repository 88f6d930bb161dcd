//! The numbers of the expressions in statements, and what the statements ask for, in the order of the text.

ghost use Rattle.std.specs.Prelude.{◌≡◌, ◌++◌, List, None, Some, map, option_map, IfOk, OnOk};
ghost use Rattle.fir_ast.specs.declared.place.Place.{Place};
ghost use Rattle.fir_ast.specs.Circuits.{CircuitTree, ModuleTree};
ghost use Rattle.fir_ast.specs.Statements as tree;
ghost use Rattle.fir_ast.specs.Types.{DataType};
ghost use Rattle.fir_ast.specs.working.Views.{block_of, expr_of, memory_part_of, named_of, reset_of, stmt_of};
ghost use Rattle.fir_ast.specs.working.TypeViews.{type_of};
ghost use Rattle.fir_meaning.specs.Components as component;
ghost use Rattle.fir_meaning.specs.Components.{Component};
ghost use Rattle.fir_meaning.specs.MemoryTypes.{memory_type};
ghost use Rattle.fir_meaning.specs.Visibility.{Before, behind, behind_block, declarations};
ghost use Rattle.fir_meaning.specs.SizedDeclarations.{NumberedModule, sized_declared};
ghost use Rattle.fir_meaning.specs.SizedTypes.{numbered};
ghost use Rattle.fir_meaning.specs.working.WellTyped.{AreLegal, IsLegal};
ghost use Rattle.fir_meaning.specs.WidthExpressions.{Rule, Width};
ghost use Rattle.fir_meaning.specs.WidthRules.{rules_in, rules_in_block};
ghost use Rattle.fir_names.specs.working.Parts.{when_view};
ghost use Rattle.fir_type_table.specs.working.Tables.{types_of};
ghost use Rattle.fir_types.specs.working.ModuleNotes.{block_notes, statement_notes};
ghost use Rattle.fir_types.specs.working.Notes.{Note as Meant};
ghost use Rattle.fir_types.specs.working.Seen.{found_type};
ghost use Rattle.fir_types.specs.working.Walked.{Begins};
ghost use Rattle.fir_infer_widths.specs.working.Ports.{has_fields};
ghost use Rattle.fir_width.specs.working.Sides.{IsSide};
ghost use Rattle.fir_infer_widths.specs.working.SpotFaults.{IsSpot};
ghost use Rattle.fir_infer_widths.specs.working.Spots.{of_component, spots_in, spots_in_block};
ghost use Rattle.fir_infer_widths.specs.working.Walks.{ComesBehind, ComesDeclared, Declares, EntersAt, PassesStatement, ShowsLeaves};

use crate::drives::{in_connect, in_driver, in_reset};
use crate::expressions::{in_condition, in_expression, in_reference};
use crate::ground::Ground;
use crate::spot::{Spot, put_spot};
use crate::walk::Walk;
use fir_ast::{Expr, Ident, Memory, Register, Stmt, When};
use fir_base::MemoryOut;
use fir_type_table::{Kind, TypeTable};
use fir_types::{Found, first_word_type};
use fir_width::Side;
use std::alloc::Global;

/// Statements, blocks of whens entered.
#[cycle(statements)]
pub fn in_block<'a>(
    body: &'a [Stmt],
    alloc: Global,
    ground: &Ground<'a>,
    walk: &mut Walk<'a>,
) -> Result<(), MemoryOut>
    ensures { (c : CircuitTree) (m : NumberedModule) (before : Before) (meant : List Width) (rules : List Rule) (rest : List Meant) → EntersAt c ground.now m before meant rules (block_notes m.modules before (block_of (map stmt_of body.now)) ++ rest) walk.old → Begins (behind_block before (block_of (map stmt_of body.now))).declared (declarations m.inside) → AreLegal m.modules before (block_of (map stmt_of body.now)) → OnOk result (ComesBehind c ground.now (behind_block before (block_of (map stmt_of body.now))) meant rules (rules_in_block m before (block_of (map stmt_of body.now))) rest (spots_in_block m before (block_of (map stmt_of body.now))) walk.old walk.new) }
{
    for statement in body {
        in_statement(statement, alloc, ground, walk)?;
    }
    Ok(())
}

#[cycle(statements)]
fn in_statement<'a>(
    statement: &'a Stmt,
    alloc: Global,
    ground: &Ground<'a>,
    walk: &mut Walk<'a>,
) -> Result<(), MemoryOut>
    ensures { (c : CircuitTree) (m : NumberedModule) (before : Before) (meant : List Width) (rules : List Rule) (rest : List Meant) → EntersAt c ground.now m before meant rules (statement_notes m.modules before (stmt_of statement.now) ++ rest) walk.old → Begins (behind before (stmt_of statement.now)).declared (declarations m.inside) → IsLegal m.modules before (stmt_of statement.now) → OnOk result (ComesBehind c ground.now (behind before (stmt_of statement.now)) meant rules (rules_in m before (stmt_of statement.now)) rest (spots_in m before (stmt_of statement.now)) walk.old walk.new) }
{
    match statement {
        Stmt::Wire(_, ident, _, _) | Stmt::Inst(_, ident, _) => {
            declared(ground, walk, ident)?;
            Ok(())
        }
        Stmt::Reg(_, register) => in_register(alloc, ground, walk, register),
        Stmt::Node(_, ident, value) => in_node(alloc, ground, walk, ident, value),
        Stmt::Mem(_, memory) => in_memory(ground, walk, memory),
        Stmt::When(_, when) => in_when(when, alloc, ground, walk),
        Stmt::Connect(_, sink, source) | Stmt::PartialConnect(_, sink, source) => {
            in_connect(alloc, ground, walk, sink, source)
        }
        Stmt::Invalid(_, sink) => {
            in_reference(sink, alloc, ground, walk)?;
            Ok(())
        }
        Stmt::Skip(_) => Ok(()),
    }
}

/// The condition, and then the blocks.
#[cycle(statements)]
fn in_when<'a>(
    when: &'a When,
    alloc: Global,
    ground: &Ground<'a>,
    walk: &mut Walk<'a>,
) -> Result<(), MemoryOut>
    ensures { (c : CircuitTree) (m : NumberedModule) (before : Before) (place : Place) (meant : List Width) (rules : List Rule) (rest : List Meant) → EntersAt c ground.now m before meant rules (statement_notes m.modules before (when_view when.now place) ++ rest) walk.old → Begins (behind before (when_view when.now place)).declared (declarations m.inside) → IsLegal m.modules before (when_view when.now place) → OnOk result (ComesBehind c ground.now (behind before (when_view when.now place)) meant rules (rules_in m before (when_view when.now place)) rest (spots_in m before (when_view when.now place)) walk.old walk.new) }
{
    in_condition(&when.condition, alloc, ground, walk)?;
    in_block(&when.then_block, alloc, ground, walk)?;
    in_block(&when.else_block, alloc, ground, walk)
}

/// Something is declared.
pub fn declared<'a>(
    ground: &Ground<'a>,
    walk: &mut Walk<'a>,
    ident: &'a Ident,
) -> Result<Side, MemoryOut>
    ensures { (c : CircuitTree) (m : NumberedModule) (before : Before) (component : Component) (t : DataType) (meant : List Width) (rules : List Rule) (rest : List Meant) → Declares c ground.now m before (named_of ident.now) component t meant rules rest walk.old → ShowsLeaves c m (named_of ident.now) component (sized_declared m before (named_of ident.now) component) → IfOk result (ComesDeclared c ground.now m before (named_of ident.now) component meant rules rest walk.old walk.new) }
{
    let own = walk.declare(ground);
    put_spot(&mut walk.spots, Spot::Declared(ident, own))?;
    Ok(own)
}

/// A register is as wide as its init.
fn in_register<'a>(
    alloc: Global,
    ground: &Ground<'a>,
    walk: &mut Walk<'a>,
    register: &'a Register,
) -> Result<(), MemoryOut>
    ensures { (place : Place) → PassesStatement ground.now (tree.register place (named_of register.now.ident) register.now.type_place (type_of register.now.ty) (expr_of register.now.clock) (option_map reset_of register.now.reset)) walk.old walk.new result }
{
    let own = declared(ground, walk, &register.ident)?;
    in_expression(&register.clock, alloc, ground, walk)?;
    in_reset(alloc, ground, walk, own, &register.reset)
}

/// A node is as wide as its expression, in which it is not known.
fn in_node<'a>(
    alloc: Global,
    ground: &Ground<'a>,
    walk: &mut Walk<'a>,
    ident: &'a Ident,
    value: &'a Expr,
) -> Result<(), MemoryOut>
    ensures { (place : Place) → PassesStatement ground.now (tree.node place (named_of ident.now) (expr_of value.now)) walk.old walk.new result }
{
    let own = declared(ground, walk, ident)?;
    in_driver(alloc, ground, walk, own, value)
}

/// The leaves of a memory stand in its ports; without ports its words are left.
fn in_memory<'a>(
    ground: &Ground<'a>,
    walk: &mut Walk<'a>,
    memory: &'a Memory,
) -> Result<(), MemoryOut>
    ensures { (place : Place) → PassesStatement ground.now (tree.memory place (named_of memory.now.ident) (map memory_part_of memory.now.fields.items)) walk.old walk.new result }
{
    let own = walk.declare(ground);
    put_spot(&mut walk.spots, memory_spot(ground.table, memory, own))
}

/// Where its faults of widths may stand.
fn memory_spot<'a>(table: &TypeTable, memory: &'a Memory, own: Side) -> Spot<'a>
    ensures { (c : CircuitTree) (m : ModuleTree) (t : DataType) (meant : List Width) → memory_type memory.now.ident.place (map memory_part_of memory.now.fields.items) ≡ Some t → found_type (types_of table.now) own.found ≡ t → IsSide (types_of table.now) meant own (numbered None t) → IsSpot c (types_of table.now) meant result (of_component m (named_of memory.now.ident) (component.memory (map memory_part_of memory.now.fields.items)) (numbered None t)) }
{
    match first_word_type(&memory.fields) {
        Some(ty) if !has_ports(table, own.found) => Spot::Array(&memory.ident, ty),
        _ => Spot::Declared(&memory.ident, own),
    }
}

/// Whether a bundle of ports has one.
fn has_ports(table: &TypeTable, found: Found) -> bool
    ensures { result ≡ has_fields (found_type (types_of table.now) found) }
{
    match found {
        Found::Number(_, _) | Found::AsyncReset => false,
        Found::Type(id, _) => match table.kind(id) {
            Kind::Bundle => !table.members(id).is_empty(),
            _ => false,
        },
    }
}

//! The types in statements, in the order of the text, blocks of whens entered.

ghost use Rattle.std.specs.Prelude.{◌≡◌, ℕ, List, [], IfOk, OnOk, flat_map, map, option_map, slice_get};
ghost use Rattle.fir_ast.specs.declared.place.Place.{Place};
ghost use Rattle.fir_ast.specs.Circuits.{ModuleTree};
ghost use Rattle.fir_ast.specs.Statements.{PlacedName};
ghost use Rattle.fir_ast.specs.working.Views.{block_of, expr_of, memory_part_of, named_of, reset_of, sink_of, stmt_of};
ghost use Rattle.fir_ast.specs.working.TypeViews.{type_of};
ghost use Rattle.fir_meaning.specs.Components as component;
ghost use Rattle.fir_meaning.specs.Components.{Declarations};
ghost use Rattle.fir_meaning.specs.ExpressionTypes.{reaching};
ghost use Rattle.fir_meaning.specs.MemoryFaults.{memory_faults};
ghost use Rattle.fir_meaning.specs.MemoryTypes.{data_of_part, first_one, memory_type};
ghost use Rattle.fir_meaning.specs.TypeGroup.{scope_at, type_faults_in, type_faults_in_block};
ghost use Rattle.fir_meaning.specs.TypedScopes.{TypedScope};
ghost use Rattle.fir_meaning.specs.Visibility.{Before, behind, behind_block, with_declaration};
ghost use Rattle.fir_names.specs.working.Parts.{when_view};
ghost use Rattle.fir_names.specs.working.Tabulated.{entry_at};
ghost use Rattle.fir_type_table.specs.working.Tables.{type_at, types_of};
ghost use Rattle.fir_check.specs.working.MemoryParts.{HasWordType, IsFoundIn, IsHeldWordType};
ghost use Rattle.fir_types.specs.working.Known.{Knows};
ghost use Rattle.fir_types.specs.working.ModuleNotes.{block_notes, register_notes, statement_notes};
ghost use Rattle.fir_types.specs.working.Notes.{expression_notes, reference_notes};
ghost use Rattle.fir_types.specs.working.Noted.{Noted};
ghost use Rattle.fir_types.specs.working.Statements.{found_bundle, node_faults, register_faults};
ghost use Rattle.fir_types.specs.working.Walked.{Begins, IsOfModule, Judges, Passes, Walks};

use crate::connects::{in_connect, in_partial_connect};
use crate::expressions::{in_expression, in_reference, in_unsigned};
use crate::memory_faults::in_memory_fields;
use crate::memory_type::memory_type;
use crate::registers::{in_clock, in_reset, no_flips, register_type};
use fir_ast::{Expr, FirFault, Ident, Memory, Reference, Register, Stmt, Ty, When};
use fir_base::{MemoryOut, Refused};
use fir_names::{Component, Names};
use fir_type_table::{TypeId, TypeTable};
use fir_types::memory_fields::{first_depth, first_word_type};
use fir_types::{Found, Note, Scope};
use std::alloc::Global;

/// The first fault of types in statements, whose types are found as they are passed.
#[cycle(statements)]
pub fn in_block(
    body: &[Stmt],
    alloc: Global,
    names: &Names,
    bundles: &[TypeId],
    scope: &mut Scope,
    notes: &mut Vec<Note>,
) -> Result<(), Refused<FirFault>>
    ensures passes { (modules : List ModuleTree) (before : Before) (whole : Declarations) → IsOfModule modules names.now whole → Begins (behind_block before (block_of (map stmt_of body.now))).declared whole → Walks modules bundles.now scope.old before → Passes modules bundles.now scope.old scope.new (type_faults_in_block modules before (block_of (map stmt_of body.now))) (behind_block before (block_of (map stmt_of body.now))) result }
    ensures notes { (modules : List ModuleTree) (before : Before) (whole : Declarations) → IsOfModule modules names.now whole → Begins (behind_block before (block_of (map stmt_of body.now))).declared whole → Walks modules bundles.now scope.old before → OnOk result (Noted (types_of scope.new.table) notes.old.items notes.new.items (block_notes modules before (block_of (map stmt_of body.now)))) }
{
    for statement in body {
        in_statement(statement, alloc, names, bundles, scope, notes)?;
    }
    Ok(())
}

#[cycle(statements)]
fn in_statement(
    statement: &Stmt,
    alloc: Global,
    names: &Names,
    bundles: &[TypeId],
    scope: &mut Scope,
    notes: &mut Vec<Note>,
) -> Result<(), Refused<FirFault>>
    ensures passes { (modules : List ModuleTree) (before : Before) (whole : Declarations) → IsOfModule modules names.now whole → Begins (behind before (stmt_of statement.now)).declared whole → Walks modules bundles.now scope.old before → Passes modules bundles.now scope.old scope.new (type_faults_in modules before (stmt_of statement.now)) (behind before (stmt_of statement.now)) result }
    ensures notes { (modules : List ModuleTree) (before : Before) (whole : Declarations) → IsOfModule modules names.now whole → Begins (behind before (stmt_of statement.now)).declared whole → Walks modules bundles.now scope.old before → OnOk result (Noted (types_of scope.new.table) notes.old.items notes.new.items (statement_notes modules before (stmt_of statement.now))) }
{
    match statement {
        Stmt::Wire(_, _, _, ty) => in_wire(alloc, scope, ty),
        Stmt::Reg(_, register) => in_register(alloc, names, scope, notes, register),
        Stmt::Node(_, ident, value) => in_node(alloc, names, scope, notes, ident, value),
        Stmt::Inst(_, _, _) => in_instance(names, bundles, scope),
        Stmt::Mem(_, memory) => in_memory(alloc, scope, memory),
        Stmt::When(_, when) => in_when(when, alloc, names, bundles, scope, notes),
        Stmt::Connect(place, sink, source) => {
            in_connect(alloc, names, scope, notes, *place, sink, source)
        }
        Stmt::PartialConnect(place, sink, source) => {
            in_partial_connect(alloc, names, scope, notes, *place, sink, source)
        }
        Stmt::Invalid(_, sink) => in_invalid(alloc, names, scope, notes, sink),
        Stmt::Skip(_) => Ok(()),
    }
}

/// The condition, and then the blocks.
#[cycle(statements)]
fn in_when(
    when: &When,
    alloc: Global,
    names: &Names,
    bundles: &[TypeId],
    scope: &mut Scope,
    notes: &mut Vec<Note>,
) -> Result<(), Refused<FirFault>>
    ensures passes { (modules : List ModuleTree) (before : Before) (whole : Declarations) (place : Place) → IsOfModule modules names.now whole → Begins (behind before (when_view when.now place)).declared whole → Walks modules bundles.now scope.old before → Passes modules bundles.now scope.old scope.new (type_faults_in modules before (when_view when.now place)) (behind before (when_view when.now place)) result }
    ensures notes { (modules : List ModuleTree) (before : Before) (whole : Declarations) (place : Place) → IsOfModule modules names.now whole → Begins (behind before (when_view when.now place)).declared whole → Walks modules bundles.now scope.old before → OnOk result (Noted (types_of scope.new.table) notes.old.items notes.new.items (statement_notes modules before (when_view when.now place))) }
{
    in_unsigned(&when.condition, alloc, names, scope, notes)?;
    in_block(&when.then_block, alloc, names, bundles, scope, notes)?;
    in_block(&when.else_block, alloc, names, bundles, scope, notes)
}

/// A wire, of the type that is written.
fn in_wire(alloc: Global, scope: &mut Scope, ty: &Ty) -> Result<(), Refused<FirFault>>
    ensures { (modules : List ModuleTree) (bundles : List TypeId) (before : Before) (n : PlacedName) → Walks modules bundles scope.old before → Passes modules bundles scope.old scope.new [] (with_declaration before n (component.wire (type_of ty.now))) result }
{
    Ok(scope.declare(alloc, ty)?)
}

/// What is invalidated is reached.
fn in_invalid(
    alloc: Global,
    names: &Names,
    scope: &Scope,
    notes: &mut Vec<Note>,
    sink: &Reference,
) -> Result<(), Refused<FirFault>>
    ensures found { (typed : TypedScope) → Knows names.now scope.now typed → Judges (reaching typed (sink_of sink.now)).shows result }
    ensures notes { (typed : TypedScope) → Knows names.now scope.now typed → OnOk result (Noted (types_of scope.now.table) notes.old.items notes.new.items (reference_notes typed (sink_of sink.now))) }
{
    in_reference(sink, alloc, names, scope, notes)?;
    Ok(())
}

/// A register: its own type, its clock, and then its reset, in which it is known.
fn in_register(
    alloc: Global,
    names: &Names,
    scope: &mut Scope,
    notes: &mut Vec<Note>,
    register: &Register,
) -> Result<(), Refused<FirFault>>
    ensures passes { (modules : List ModuleTree) (bundles : List TypeId) (before : Before) (whole : Declarations) → IsOfModule modules names.now whole → Begins (with_declaration before (named_of register.now.ident) (component.register (type_of register.now.ty))).declared whole → Walks modules bundles scope.old before → Passes modules bundles scope.old scope.new (register_faults modules before (named_of register.now.ident) (type_of register.now.ty) (expr_of register.now.clock) (option_map reset_of register.now.reset)) (with_declaration before (named_of register.now.ident) (component.register (type_of register.now.ty))) result }
    ensures notes { (modules : List ModuleTree) (bundles : List TypeId) (before : Before) (whole : Declarations) → IsOfModule modules names.now whole → Begins (with_declaration before (named_of register.now.ident) (component.register (type_of register.now.ty))).declared whole → Walks modules bundles scope.old before → OnOk result (Noted (types_of scope.new.table) notes.old.items notes.new.items (register_notes modules before (named_of register.now.ident) (type_of register.now.ty) (expr_of register.now.clock) (option_map reset_of register.now.reset))) }
{
    let found = scope.add(alloc, &register.ty)?;
    register_type(alloc, &scope.table, &register.ident, found)?;
    in_clock(alloc, names, scope, notes, &register.clock)?;
    scope.declared.push(Some(found))?;
    in_reset(alloc, names, scope, notes, found, &register.reset)
}

/// A node, which is not known in its own expression.
fn in_node(
    alloc: Global,
    names: &Names,
    scope: &mut Scope,
    notes: &mut Vec<Note>,
    ident: &Ident,
    value: &Expr,
) -> Result<(), Refused<FirFault>>
    ensures passes { (modules : List ModuleTree) (bundles : List TypeId) (before : Before) (whole : Declarations) → IsOfModule modules names.now whole → Begins (with_declaration before (named_of ident.now) (component.node (expr_of value.now))).declared whole → Walks modules bundles scope.old before → Passes modules bundles scope.old scope.new (node_faults modules before (named_of ident.now) (expr_of value.now)) (with_declaration before (named_of ident.now) (component.node (expr_of value.now))) result }
    ensures notes { (modules : List ModuleTree) (bundles : List TypeId) (before : Before) (whole : Declarations) → IsOfModule modules names.now whole → Begins (with_declaration before (named_of ident.now) (component.node (expr_of value.now))).declared whole → Walks modules bundles scope.old before → OnOk result (Noted (types_of scope.new.table) notes.old.items notes.new.items (expression_notes (scope_at modules before) (expr_of value.now))) }
{
    let found = in_expression(value, alloc, names, scope, notes)?;
    no_flips(alloc, &scope.table, ident, found)?;
    Ok(scope.declare_found(found)?)
}

/// An instance, which is as the ports of its module.
fn in_instance(
    names: &Names,
    bundles: &[TypeId],
    scope: &mut Scope,
) -> Result<(), Refused<FirFault>>
    ensures { (modules : List ModuleTree) (before : Before) (whole : Declarations) (n : PlacedName) (name : List ℕ) → IsOfModule modules names.now whole → Begins (with_declaration before n (component.instance name)).declared whole → Walks modules bundles.now scope.old before → Passes modules bundles.now scope.old scope.new [] (with_declaration before n (component.instance name)) result }
{
    let found = bundle_of(names, bundles, scope.declared.len());
    Ok(scope.declare_found(found)?)
}

/// The bundle of the instance before whose declaration so many stand.
fn bundle_of(names: &Names, bundles: &[TypeId], position: usize) -> Option<Found>
    ensures { result ≡ found_bundle bundles.now (entry_at names.now position) }
{
    let declaration = names.at(position)?;
    let Component::Instance(number) = declaration.component else {
        return None;
    };
    let id = bundles.get(number)?;
    Some(Found::Type(*id, false))
}

/// A memory: its fields, and then the bundle of its ports.
fn in_memory(alloc: Global, scope: &mut Scope, memory: &Memory) -> Result<(), Refused<FirFault>>
    ensures { (modules : List ModuleTree) (bundles : List TypeId) (before : Before) → Walks modules bundles scope.old before → Passes modules bundles scope.old scope.new (memory_faults (named_of memory.now.ident) (map memory_part_of memory.now.fields.items)) (with_declaration before (named_of memory.now.ident) (component.memory (map memory_part_of memory.now.fields.items))) result }
{
    let word_type = add_word_type(alloc, &mut scope.table, memory)?;
    in_memory_fields(alloc, &scope.table, memory, word_type)?;
    let found = memory_found(alloc, &mut scope.table, memory, word_type)?;
    scope.declared.push(found)?;
    Ok(())
}

/// Puts the type of a memory's words into the table, where it is written.
fn add_word_type(
    alloc: Global,
    table: &mut TypeTable,
    memory: &Memory,
) -> Result<Option<TypeId>, MemoryOut>
    ensures { IfOk result (λ id. HasWordType table.old table.new (map memory_part_of memory.now.fields.items) id) }
{
    match first_word_type(&memory.fields) {
        Some(ty) => Ok(Some(table.add(alloc, ty)?)),
        None => Ok(None),
    }
}

/// The type of a memory, where the type of its words and a depth are written.
fn memory_found(
    alloc: Global,
    table: &mut TypeTable,
    memory: &Memory,
    word_type: Option<TypeId>,
) -> Result<Option<Found>, MemoryOut>
    requires { IsHeldWordType (types_of table.old) word_type }
    ensures { IfOk result (λ found. option_map (λ id. type_at (types_of table.old) id.number) word_type ≡ first_one (flat_map data_of_part (map memory_part_of memory.now.fields.items)) → IsFoundIn table.old table.new (memory_type memory.now.ident.place (map memory_part_of memory.now.fields.items)) found) }
{
    let Some(word_type) = word_type else {
        return Ok(None);
    };
    let Some(words) = first_depth(&memory.fields) else {
        return Ok(None);
    };
    let place = memory.ident.place;
    let id = memory_type(alloc, table, place, &memory.fields, word_type, words)?;
    Ok(Some(Found::Type(id, false)))
}
